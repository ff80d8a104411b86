//! Certificates whose policies are processed apart.

ghost use Rattle.std.specs.Prelude.{◌≡◌, IfOk, IfErr, OnOk, map};
ghost use Rattle.cert.specs.Certificate.{seen_certificate};
ghost use Rattle.path_policies.specs.Reading.{AreAllTaken, IsFirstRefused};
ghost use Rattle.path_with_policies.specs.WithPolicies.{apart, seen_apart};

use cert::{CertFault, Certificate};
use path_policies::{PolicyCertificate, policy_certificates};
use std::alloc::Global;

/// Leaves the policies of the certificates to who processes them.
fn leave_apart(certificates: &mut [Certificate<'_>])
    ensures { map seen_certificate certificates.new ≡ map seen_apart certificates.old }
{
    for certificate in certificates.iter_mut() {
        certificate.extensions.needs_policy_processing = false;
    }
}

/// Takes of the certificates, in order, what counts for policies, so that none of them is refused any more because it needs policy
/// processing (RFC 5280, 6.1.3 (d) to (f)); else the place of the first whose extensions about policies are malformed, from 0 on, and why.
pub fn policies_apart<'a>(
    alloc: Global,
    certificates: &mut [Certificate<'a>],
) -> Result<Vec<PolicyCertificate<'a>>, (usize, CertFault)>
    ensures read { IfOk result (λ read. AreAllTaken certificates.old read.items) }
    ensures apart { OnOk result (map seen_certificate certificates.new
        ≡ map seen_apart certificates.old) }
    ensures refused { IfErr result (λ refusal.
        IsFirstRefused certificates.old refusal.0 refusal.1) }
{
    let read = policy_certificates(alloc, certificates)?;
    leave_apart(certificates);
    Ok(read)
}
