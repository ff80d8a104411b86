//! `x509check_find`.

ghost use Rattle.std.specs.Prelude.{◌<◌};
ghost use Rattle.path.specs.Query.{Accepts};
ghost use Rattle.capi_values.specs.Among.{AreSearchJudged, TellsFindingOf};
ghost use Rattle.capi_values.specs.Finding.{TellsSearchAnswer};

use capi_values::{FindingAnswer, SearchOfTexts, Text, answer_search};
use std::alloc::Global;

/// What the search finds by statements at hand, as `answer_search` says: this hands on, since a library exports nothing to C. As many numbers
/// of certificates of the path are written as there is room for.
///
/// Whoever asks `x509check_find_questions`, has each question judged, and hands in the fingerprints of those that are answered by yes, and
/// of no others, gets what that judge would find.
#[unsafe(no_mangle)]
pub extern "C" fn x509check_find(
    alloc: Global,
    search: &SearchOfTexts<'_>,
    statements: &[Text<'_>],
    fingerprints: &[[u8; 32]],
    path: &mut [usize],
) -> FindingAnswer
    ensures tells { TellsSearchAnswer result search.now statements.now fingerprints.now
        path.old path.new }
    ensures judged { (accepts : Accepts)
        → AreSearchJudged accepts search.now statements.now fingerprints.now
        → TellsFindingOf result accepts search.now statements.now path.old path.new }
    ensures filled { 0 < result.verdict.verdict }
{
    answer_search(alloc, search, statements, fingerprints, path)
}
