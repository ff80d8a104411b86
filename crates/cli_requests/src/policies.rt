//! Verdicts that a line asks for, with certificate policies or without.
ghost use Rattle.std.specs.Prelude.{◌≡◌, IfErr, IfOk, Some, option_map};
ghost use Rattle.cli_words.specs.QueryTexts.{seen_words};
ghost use Rattle.cli_requests.specs.Requests.{IsNone, asked_in, begin_with, behind_flag, first_policies, octets_of_words, path_in};
ghost use Rattle.cli_requests.specs.Requests.{path_texts, path_with_policies_in, policy_in, seen_request};

use crate::request::{Request, RequestFault, check_operands};
use cli_words::{PolicyWords, QueryWords};
use std::alloc::{AllocError, Global};

// The path that the words name.
fn path_words<'a>(
    alloc: Global,
    moment: &'a str,
    purpose: Option<&'a str>,
    words: &[&'a str],
) -> Result<QueryWords<'a>, RequestFault>
    ensures reads { IfOk result (λ query.
        path_texts moment.entry.now (option_map (λ text. text.now) purpose.entry)
        (octets_of_words words.now)
        ≡ Some (seen_words query)) }
    ensures refuses { IfErr result (IsNone
        (path_texts moment.entry.now (option_map (λ text. text.now) purpose.entry)
        (octets_of_words words.now))) }
{
    let [anchor, files @ ..] = words else {
        return Err(RequestFault::Malformed);
    };
    if files.is_empty() {
        return Err(RequestFault::Malformed);
    }
    check_operands(alloc, words)?;
    Ok(QueryWords {
        moment,
        purpose,
        anchor,
        files: Vec::from_slice(alloc, files)?,
    })
}

#[tactic(auto, unfolding(crate::specs::Requests::path_in))]
fn path_in<'a>(
    alloc: Global,
    moment: &'a str,
    purpose: Option<&'a str>,
    words: &[&'a str],
) -> Result<Request<'a>, RequestFault>
    ensures reads { IfOk result (λ request.
        path_in moment.entry.now (option_map (λ text. text.now) purpose.entry)
        (octets_of_words words.now)
        ≡ Some (seen_request request)) }
    ensures refuses { IfErr result (IsNone
        (path_in moment.entry.now (option_map (λ text. text.now) purpose.entry)
        (octets_of_words words.now))) }
{
    let query = path_words(alloc, moment, purpose, words)?;
    Ok(Request::Check(query))
}

// The policy that the word names.
fn policy_in(word: &str) -> Option<&str>
    ensures { option_map (λ text. text.now) result ≡ policy_in word.now }
{
    word.strip_prefix("policy=")
}

// The policies with which the words begin.
fn first_policies<'a>(alloc: Global, words: &[&'a str]) -> Result<Vec<&'a str>, AllocError>
    ensures { IfOk result (λ policies. octets_of_words policies.items
        ≡ first_policies (octets_of_words words.now)) }
{
    let mut policies = Vec::new(alloc);
    for word in words {
        let Some(policy) = policy_in(word) else {
            return Ok(policies);
        };
        policies.push(policy)?;
    }
    Ok(policies)
}

// Whether the words begin with the flag, and those behind it.
fn flag_in<'w, 'a>(flag: &str, words: &'w [&'a str]) -> (bool, &'w [&'a str])
    ensures given { result.0 ≡ begin_with flag.now (octets_of_words words.now) }
    ensures behind { octets_of_words result.1.now
        ≡ behind_flag flag.now (octets_of_words words.now) }
{
    let [word, behind @ ..] = words else {
        return (false, words);
    };
    if *word == flag {
        (true, behind)
    } else {
        (false, words)
    }
}

// The path behind these policies.
#[tactic(auto, unfolding(crate::specs::Requests::path_with_policies_in))]
fn path_with_policies_in<'a>(
    alloc: Global,
    moment: &'a str,
    purpose: Option<&'a str>,
    policies: Vec<&'a str>,
    words: &[&'a str],
) -> Result<Request<'a>, RequestFault>
    ensures reads { IfOk result (λ request.
        path_with_policies_in moment.entry.now (option_map (λ text. text.now) purpose.entry)
        (octets_of_words policies.entry.items) (octets_of_words words.now)
        ≡ Some (seen_request request)) }
    ensures refuses { IfErr result (IsNone
        (path_with_policies_in moment.entry.now (option_map (λ text. text.now) purpose.entry)
        (octets_of_words policies.entry.items) (octets_of_words words.now))) }
{
    let (require_policy, behind) = flag_in("require-policy", words);
    let (inhibit_mapping, behind) = flag_in("inhibit-mapping", behind);
    let (inhibit_any_policy, behind) = flag_in("inhibit-any-policy", behind);
    let query = path_words(alloc, moment, purpose, behind)?;
    let policies = PolicyWords {
        policies,
        require_policy,
        inhibit_mapping,
        inhibit_any_policy,
    };
    Ok(Request::CheckWithPolicies { query, policies })
}

/// `[policy=OID .. [require-policy] [inhibit-mapping] [inhibit-any-policy]] ANCHOR FILE ..`, behind the moment and the purpose.
pub(crate) fn asked_in<'a>(
    alloc: Global,
    moment: &'a str,
    purpose: Option<&'a str>,
    words: &[&'a str],
) -> Result<Request<'a>, RequestFault>
    ensures reads { IfOk result (λ request.
        asked_in moment.entry.now (option_map (λ text. text.now) purpose.entry)
        (octets_of_words words.now)
        ≡ Some (seen_request request)) }
    ensures refuses { IfErr result (IsNone
        (asked_in moment.entry.now (option_map (λ text. text.now) purpose.entry)
        (octets_of_words words.now))) }
{
    let policies = first_policies(alloc, words)?;
    if policies.is_empty() {
        return path_in(alloc, moment, purpose, words);
    }
    let (_, behind) = words.split_at(policies.len());
    path_with_policies_in(alloc, moment, purpose, policies, behind)
}
