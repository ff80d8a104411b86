//! What the processing of policies is asked.

ghost use Rattle.std.specs.Prelude.{IfOk, IfErr};
ghost use Rattle.cert.specs.Certificate.{seen_certificate};
ghost use Rattle.cert.specs.Fault.{GivesUnlessFull};
ghost use Rattle.path_policies.specs.Reading.{policy_certificate, AreAllTaken, IsFirstRefused};
ghost use Rattle.path_policies.specs.Seen.{seen_policy_certificate};

use asn::Oid;
use cert::{CertFault, Certificate};
use cert_policies::PolicyExtensions;
use std::alloc::Global;

/// What is taken of a certificate.
#[derive(Drop)]
pub struct PolicyCertificate<'a> {
    /// Whether its subject and its issuer match.
    pub self_issued: bool,
    pub extensions: PolicyExtensions<'a>,
}

impl<'a> PolicyCertificate<'a> {
    /// Takes of a certificate what counts for policies; else the first fault in one of its extensions about policies, as
    /// `PolicyExtensions::read` answers it.
    #[tactic(auto, unfolding(crate::specs::Reading::policy_certificate))]
    pub fn read(
        alloc: Global,
        certificate: &Certificate<'a>,
    ) -> Result<PolicyCertificate<'a>, CertFault>
        ensures { GivesUnlessFull seen_policy_certificate result (policy_certificate
            (seen_certificate certificate.now)) }
    {
        let extensions = PolicyExtensions::read(alloc, certificate)?;
        Ok(PolicyCertificate {
            self_issued: certificate.self_issued(),
            extensions,
        })
    }
}

/// Takes of the certificates of a path, in order, what counts for policies; else the place of the first that is refused, from 0 on, and why.
pub fn policy_certificates<'a>(
    alloc: Global,
    path: &[Certificate<'a>],
) -> Result<Vec<PolicyCertificate<'a>>, (usize, CertFault)>
    ensures read { IfOk result (λ read. AreAllTaken path.now read.items) }
    ensures refused { IfErr result (λ refusal. IsFirstRefused path.now refusal.0 refusal.1) }
{
    let mut all = Vec::new(alloc);
    for (index, certificate) in path.iter().enumerate() {
        let read = match PolicyCertificate::read(alloc, certificate) {
            Ok(read) => read,
            Err(fault) => return Err((index, fault)),
        };
        if all.push(read).is_err() {
            return Err((index, CertFault::Memory));
        }
    }
    Ok(all)
}

/// The certificates 1 to n below a trust anchor, and what the user takes (RFC 5280, 6.1.1 (c), (e), (f) and (g)).
#[derive(Clone, Copy)]
pub struct PolicyQuery<'p, 'c> {
    pub certificates: &'p [PolicyCertificate<'c>],
    /// user-initial-policy-set: with anyPolicy among them, every policy.
    pub initial_policies: &'p [Oid<'c>],
    /// initial-policy-mapping-inhibit
    pub inhibit_policy_mapping: bool,
    /// initial-explicit-policy
    pub require_explicit_policy: bool,
    /// initial-any-policy-inhibit
    pub inhibit_any_policy: bool,
}
