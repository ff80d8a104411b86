//! Laws of the text.

ghost use Rattle.asn.specs.Time.{IsTime};
ghost use Rattle.cli_listing.specs.MomentText.{moment_text, IsSpellable};
ghost use Rattle.cli_listing.specs.PointText.{PointsAreFound};

use crate::calendar::civil_after;
use crate::moment::{FIRST, LAST};

/// The text of a moment from the year 0 to 9999 is read as the moment.
pub fn moment_law(moment: i64)
    ensures { IsSpellable moment → IsTime 24 (moment_text moment) moment }
{
    if FIRST <= moment && moment <= LAST {
        let _civil = civil_after((moment - FIRST) as u64);
    }
}

/// Of an issuer at a point, the octets of the point are found behind the key of the issuer's name.
pub fn point_law()
    ensures { PointsAreFound }
{}
