//! Which certificates of its issuer a list is about (RFC 5280, 5.2.5).

ghost use Rattle.std.specs.Prelude.{◌≡◌};
ghost use Rattle.statements_crl.specs.IssuerScope.{scope_in};

use statements_facts::Scope;

/// SEQUENCE { onlyContainsUserCerts [1] TRUE }
const USER_CERTIFICATES: &[u8] = &[0x30, 0x03, 0x81, 0x01, 0xFF];

/// SEQUENCE { onlyContainsCACerts [2] TRUE }
const CA_CERTIFICATES: &[u8] = &[0x30, 0x03, 0x82, 0x01, 0xFF];

/// The scope that the value of an issuingDistributionPoint names, which is one of these two; `None` for another value.
#[tactic(auto, unfolding(crate::specs::IssuerScope::scope_in))]
pub(crate) fn scope_of(octets: &[u8]) -> Option<Scope>
    ensures { result ≡ scope_in octets.now }
{
    if octets == USER_CERTIFICATES {
        Some(Scope::User)
    } else if octets == CA_CERTIFICATES {
        Some(Scope::Ca)
    } else {
        None
    }
}
