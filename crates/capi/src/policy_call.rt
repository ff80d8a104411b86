//! `x509check_validate_with_policies`.

ghost use Rattle.std.specs.Prelude.{◌<◌};
ghost use Rattle.path.specs.Query.{Accepts};
ghost use Rattle.capi_values.specs.Judging.{AreJudged};
ghost use Rattle.capi_values.specs.Policies.{TellsPoliciesFor, TellsPolicyAnswer};

use capi_values::{PolicyAnswer, PolicyInputsOfTexts, QueryOfTexts, Text, answer_policy_query};
use std::alloc::Global;

/// The verdict on the path by statements at hand, and the policies at its end, as `answer_policy_query` says: this hands on, since a library
/// exports nothing to C. The lengths and the contents of the policies are written, as many as there is room for.
///
/// Whoever asks `x509check_questions`, has each question judged, and hands in the fingerprints of those that are answered by yes, and of no
/// others, gets the verdict of that judge.
#[unsafe(no_mangle)]
pub extern "C" fn x509check_validate_with_policies(
    alloc: Global,
    query: &QueryOfTexts<'_>,
    inputs: &PolicyInputsOfTexts<'_>,
    statements: &[Text<'_>],
    fingerprints: &[[u8; 32]],
    lengths: &mut [usize],
    octets: &mut [u8],
) -> PolicyAnswer
    ensures tells { TellsPolicyAnswer result query.now inputs.now statements.now fingerprints.now
        lengths.old lengths.new octets.old octets.new }
    ensures judged { (accepts : Accepts)
        → AreJudged accepts query.now statements.now fingerprints.now
        → TellsPoliciesFor result accepts query.now inputs.now statements.now
        lengths.old lengths.new octets.old octets.new }
    ensures filled { 0 < result.verdict.verdict }
{
    answer_policy_query(
        alloc,
        query,
        inputs,
        statements,
        fingerprints,
        lengths,
        octets,
    )
}
