//! What is found among the paths that count.

ghost use Rattle.relying_search.specs.Among.{AmongAllIsFinding, FindingAmongIsOne, FoundIsCounted, PartiesFindTheSameAmong};

use crate::filter::PathFilter;
use path_search::search_laws;
use relying_agreement::{agreement_laws, verdict_laws};

/// What is found among all valid paths is what is found if each of them counts.
pub fn among_all_law()
    ensures { AmongAllIsFinding }
{}

/// A path that is found is valid and counts. A search has one finding, whatever it may spend, if that suffices. Two relying parties find the
/// same path with the same verdict if both hold the same newest statements for each valid path that counts.
pub fn finding_among_laws<F: PathFilter>(filter: &F)
    ensures counted { FoundIsCounted (F.counts filter.now) }
    ensures one { FindingAmongIsOne (F.counts filter.now) }
    ensures agree { PartiesFindTheSameAmong (F.counts filter.now) }
{
    search_laws();
    verdict_laws();
    agreement_laws();
}
