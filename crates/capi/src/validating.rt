//! `x509check_validate`.

ghost use Rattle.std.specs.Prelude.{◌<◌};
ghost use Rattle.path.specs.Query.{Accepts};
ghost use Rattle.capi_values.specs.Judging.{AreJudged, TellsVerdictFor};
ghost use Rattle.capi_values.specs.Verdict.{TellsAnswer};

use capi_values::{QueryOfTexts, Text, VerdictAnswer, answer_query};
use std::alloc::Global;

/// The verdict on the path by statements at hand, as `answer_query` says: this hands on, since a library exports nothing to C.
///
/// Whoever asks `x509check_questions`, has each question judged, and hands in the fingerprints of those that are answered by yes, and of no
/// others, gets the verdict of that judge.
#[unsafe(no_mangle)]
pub extern "C" fn x509check_validate(
    alloc: Global,
    query: &QueryOfTexts<'_>,
    statements: &[Text<'_>],
    fingerprints: &[[u8; 32]],
) -> VerdictAnswer
    ensures tells { TellsAnswer result query.now statements.now fingerprints.now }
    ensures judged { (accepts : Accepts)
        → AreJudged accepts query.now statements.now fingerprints.now
        → TellsVerdictFor result accepts query.now statements.now }
    ensures filled { 0 < result.verdict }
{
    answer_query(alloc, query, statements, fingerprints)
}
