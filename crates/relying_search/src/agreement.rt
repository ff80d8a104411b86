//! What is found depends on little.

ghost use Rattle.relying_search.specs.Finding.{FindingIsOne};
ghost use Rattle.relying_search.specs.Agreement.{PartiesFindTheSame};

use path_search::search_laws;
use relying_agreement::{agreement_laws, verdict_laws};

/// A search has one finding, whatever it may spend, if that suffices. Two relying parties find the same path with the same verdict if both
/// hold the same newest statements for each valid path.
pub fn finding_laws()
    ensures one { FindingIsOne }
    ensures agree { PartiesFindTheSame }
{
    search_laws();
    verdict_laws();
    agreement_laws();
}
