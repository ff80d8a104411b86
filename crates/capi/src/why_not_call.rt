//! `x509check_why_not`.

ghost use Rattle.std.specs.Prelude.{◌<◌};
ghost use Rattle.path.specs.Query.{Accepts};
ghost use Rattle.capi_values.specs.Among.{AreCertificatesJudged};
ghost use Rattle.capi_values.specs.WhyNot.{TellsWhyNotAnswer, TellsWhyNotOf, rooms};

use capi_values::{NumberedObstacle, SearchOfTexts, WhyNotAnswer, answer_why_not};
use std::alloc::Global;

/// Why the search finds no path, as `answer_why_not` says: this hands on, since a library exports nothing to C. As many numbers are written to
/// each array as there is room for.
///
/// Whoever asks `x509check_find_questions`, has each question judged, and hands in the fingerprints of those that are answered by yes, and
/// of no others, is told why that judge would find no path.
#[unsafe(no_mangle)]
pub extern "C" fn x509check_why_not(
    alloc: Global,
    search: &SearchOfTexts<'_>,
    fingerprints: &[[u8; 32]],
    above: &mut [usize],
    anchors: &mut [usize],
    obstacles: &mut [NumberedObstacle],
) -> WhyNotAnswer
    ensures tells { TellsWhyNotAnswer result search.now fingerprints.now
        (rooms above.old anchors.old obstacles.old)
        (rooms above.new anchors.new obstacles.new) }
    ensures judged { (accepts : Accepts)
        → AreCertificatesJudged accepts search.now fingerprints.now
        → TellsWhyNotOf result accepts search.now (rooms above.old anchors.old obstacles.old)
        (rooms above.new anchors.new obstacles.new) }
    ensures filled { 0 < result.why }
{
    answer_why_not(alloc, search, fingerprints, above, anchors, obstacles)
}
