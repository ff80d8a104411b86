//! Policies.
ghost use Rattle.std.specs.Prelude.{◌≡◌, IfErr, IfOk, map};
ghost use Rattle.asn.specs.Oid.{oid_contents};
ghost use Rattle.path_policies.specs.Seen.{contents_of};
ghost use Rattle.cli_words.specs.PolicyTexts.{seen_policy_words};
ghost use Rattle.cli_operands.specs.Policies.{ArePolicyTerms, HasTermsOf, IsBadPolicy, IsNoPolicy, NamePolicies, NamesPolicy};

use crate::purpose_of;
use asn::Oid;
use cli_failures::Failure;
use cli_words::PolicyWords;
use path_with_policies::PolicyInputs;
use std::alloc::{AllocError, Global};

/// What is asked of policies.
#[derive(Drop)]
pub struct PolicyTerms {
    /// user-initial-policy-set, by the contents of OBJECT IDENTIFIERs.
    pub policies: Vec<Vec<u8>>,
    /// initial-explicit-policy
    pub require_policy: bool,
    /// initial-policy-mapping-inhibit
    pub inhibit_mapping: bool,
    /// initial-any-policy-inhibit
    pub inhibit_any_policy: bool,
}

/// The contents of the policy that the word names.
fn read_policy<'a>(alloc: Global, word: &'a str) -> Result<Vec<u8>, Failure<'a>>
    ensures reads { IfOk result (λ contents. NamesPolicy word.entry.now contents.items) }
    ensures fails { IfErr result (IsNoPolicy word.entry.now) }
{
    match purpose_of(alloc, word) {
        Ok(Some(contents)) => Ok(contents),
        Ok(None) => Err(Failure::BadPolicy { word }),
        Err(_) => Err(Failure::NoMemory),
    }
}

/// The contents of the policies that the words name.
fn read_policies<'a>(alloc: Global, words: &[&'a str]) -> Result<Vec<Vec<u8>>, Failure<'a>>
    ensures reads { IfOk result (λ policies. NamePolicies (map (λ word. word.now) words.now)
        (map (λ contents. contents.items) policies.items)) }
    ensures fails { IfErr result (IsBadPolicy (map (λ word. word.now) words.now)) }
{
    let mut policies = Vec::new(alloc);
    for word in words {
        let contents = read_policy(alloc, word)?;
        if policies.push(contents).is_err() {
            return Err(Failure::NoMemory);
        }
    }
    Ok(policies)
}

/// Reads what is asked of policies. Policies are OBJECT IDENTIFIERs in dotted decimal, read as purposes are; the first word that is none is
/// reported (`BadPolicy`), or `NoMemory`. Time and memory are linear in the words.
pub fn read_policy_terms<'a>(
    alloc: Global,
    words: &PolicyWords<'a>,
) -> Result<PolicyTerms, Failure<'a>>
    ensures reads { IfOk result (ArePolicyTerms (seen_policy_words words.now)) }
    ensures fails { IfErr result (IsBadPolicy (seen_policy_words words.now).policies) }
{
    let policies = read_policies(alloc, words.policies.as_slice())?;
    Ok(PolicyTerms {
        policies,
        require_policy: words.require_policy,
        inhibit_mapping: words.inhibit_mapping,
        inhibit_any_policy: words.inhibit_any_policy,
    })
}

impl PolicyTerms {
    /// The policies of user-initial-policy-set.
    pub fn initial_policies<'q>(&'q self, alloc: Global) -> Result<Vec<Oid<'q>>, AllocError>
        ensures { IfOk result (λ oids. contents_of oids.items
            ≡ map (λ contents. contents.items) self.now.policies.items) }
    {
        let mut oids = Vec::new(alloc);
        for contents in self.policies.as_slice() {
            oids.push(Oid::new(contents.as_slice()))?;
        }
        Ok(oids)
    }

    /// What the user asks, with these policies.
    pub fn inputs<'p, 'q>(&self, initial_policies: &'p [Oid<'q>]) -> PolicyInputs<'p, 'q>
        ensures { contents_of initial_policies.now
            ≡ map (λ contents. contents.items) self.now.policies.items
            → HasTermsOf self.now result }
    {
        PolicyInputs {
            initial_policies,
            inhibit_policy_mapping: self.inhibit_mapping,
            require_explicit_policy: self.require_policy,
            inhibit_any_policy: self.inhibit_any_policy,
        }
    }
}
