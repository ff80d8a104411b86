//! How much of a list is served.

ghost use Rattle.std.specs.Prelude.{◌<◌, OnOk};
ghost use Rattle.asn.specs.Reading.{Gives};
ghost use Rattle.cert.specs.Limit.{has_room};

use crate::fault::{CertRefusal, CertRule};

/// The most general names of a subjectAltName, and the most subtrees of a nameConstraints.
pub const MOST_NAMES: usize = 4096;

/// The fault `Limit`, at this offset, if there are as many as may be.
#[tactic(auto, unfolding(crate::specs::Limit::has_room, asn::specs::Walk::check_that))]
pub(crate) fn check_room(most: usize, count: usize, at: usize) -> Result<(), CertRefusal>
    ensures walk { Gives (λ _. tt) result (has_room most count at) }
    ensures room { OnOk result (count < most) }
{
    if count < most {
        Ok(())
    } else {
        Err((CertRule::Limit, at))
    }
}
