//! What is asked of certificate policies.
ghost use Rattle.std.specs.Prelude.{◌≡◌, Some, codes, map};
ghost use Rattle.clap.specs.Words.{all_of, found_of, rows_of};
ghost use Rattle.cli_words.specs.CommandLine.{AskPolicies, GivesTexts, has_policy_flag};
ghost use Rattle.cli_words.specs.PolicyTexts.{seen_policy_words};

use crate::arguments::is_set;
use clap::ArgMatches;

/// What `check` asks of certificate policies (RFC 5280, 6.1.1), and a session's `check`: the words as they were given. None of them has
/// been read.
#[derive(Debug, Drop, PartialEq, Eq)]
pub struct PolicyWords<'a> {
    /// user-initial-policy-set (c), at least one word: OBJECT IDENTIFIERs in dotted decimal.
    pub policies: Vec<&'a str>,
    /// initial-explicit-policy (f)
    pub require_policy: bool,
    /// initial-policy-mapping-inhibit (e)
    pub inhibit_mapping: bool,
    /// initial-any-policy-inhibit (g)
    pub inhibit_any_policy: bool,
}

/// Whether an option was given that says how policies are processed.
pub(crate) fn has_policy_flag(matches: &ArgMatches<'_>) -> bool
    ensures { result ≡ has_policy_flag (rows_of (found_of matches.now)) }
{
    is_set(matches, "require-policy")
        || is_set(matches, "inhibit-mapping")
        || is_set(matches, "inhibit-any-policy")
}

/// What the matches ask of these policies.
pub(crate) fn policies_asked<'a>(
    matches: &ArgMatches<'a>,
    policies: Vec<&'a str>,
) -> PolicyWords<'a>
    requires { GivesTexts (rows_of (found_of matches.now)) (codes "policy") policies.items }
    ensures { AskPolicies (rows_of (found_of matches.now)) (seen_policy_words result) }
{
    PolicyWords {
        policies,
        require_policy: is_set(matches, "require-policy"),
        inhibit_mapping: is_set(matches, "inhibit-mapping"),
        inhibit_any_policy: is_set(matches, "inhibit-any-policy"),
    }
}
