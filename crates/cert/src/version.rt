//! Versions of certificates (RFC 5280, 4.1.2.1).

ghost use Rattle.std.specs.Prelude.{◌≡◌};
ghost use Rattle.asn.specs.Reading.{left, Gives};
ghost use Rattle.cert.specs.Version.{is_v1, is_v3, version, version_of, version_number};

use crate::fault::{CertRefusal, CertRule};
use asn::{Cursor, INTEGER};

/// Version ::= INTEGER { v1(0), v2(1), v3(2) }
#[derive(Clone, Copy, Debug, PartialEq, Eq)]
pub enum Version {
    V1,
    V2,
    V3,
}

/// The version that the contents of an INTEGER name. DER leaves out v1, which is the default.
fn version_of_contents(contents: &[u8]) -> Option<Version>
    ensures { result ≡ version_of contents.now }
{
    match contents {
        [1] => Some(Version::V2),
        [2] => Some(Version::V3),
        _ => None,
    }
}

impl Version {
    /// The version, from 1 to 3.
    pub fn number(self) -> u8
        ensures { result ≡ version_number self }
    {
        match self {
            Version::V1 => 1,
            Version::V2 => 2,
            Version::V3 => 3,
        }
    }

    pub(crate) fn is_v1(self) -> bool
        ensures { result ≡ is_v1 self }
    {
        matches!(self, Version::V1)
    }

    pub(crate) fn is_v3(self) -> bool
        ensures { result ≡ is_v3 self }
    {
        matches!(self, Version::V3)
    }

    /// Takes [0] EXPLICIT Version DEFAULT v1, if it is there.
    #[tactic(auto, unfolding(crate::specs::Version::version))]
    pub(crate) fn take(members: &mut Cursor<'_>) -> Result<Version, CertRefusal>
        ensures { Gives (λ read. (read, left members.new)) result (version (left members.old)) }
    {
        let Some(explicit) = members.optional(0xA0) else {
            return Ok(Version::V1);
        };
        let mut inside = explicit.members();
        let number = inside.required(INTEGER, CertRule::Layout)?;
        let Some(version) = version_of_contents(number.body) else {
            return Err((CertRule::Version, number.at));
        };
        inside.ended(CertRule::Layout)?;
        Ok(version)
    }
}
