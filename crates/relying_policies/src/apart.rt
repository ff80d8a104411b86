//! The certificates of a search, their policies taken apart.

ghost use Rattle.std.specs.Prelude.{◌≡◌, Ok, IfOk, IfErr, OnOk, map};
ghost use Rattle.cert.specs.Certificate.{seen_certificate};
ghost use Rattle.path_policies.specs.Reading.{AreAllTaken, policy_certificate};
ghost use Rattle.path_policies.specs.Seen.{seen_policy_certificate};
ghost use Rattle.path_with_policies.specs.WithPolicies.{seen_apart};
ghost use Rattle.relying_policies.specs.Apart.{IsRefusedInSearch};

use cert::{CertFault, Certificate};
use path_policies::PolicyCertificate;
use path_with_policies::policies_apart;
use std::alloc::Global;

/// What counts for policies of the certificates of a search.
#[derive(Drop)]
pub struct PoliciesApart<'c> {
    /// Of those in the bag, in their order.
    pub bag: Vec<PolicyCertificate<'c>>,
    pub target: PolicyCertificate<'c>,
}

/// Takes of the certificates of a search what counts for policies, so that none of them is refused any more because it needs policy
/// processing (RFC 5280, 6.1.3 (d) to (f)).
///
/// If the extensions about policies of one are malformed, its place in the bag is reported, and why; the place behind the last one is that of
/// the target, which is read before the bag. Time is that of reading the extensions once more.
pub fn search_policies_apart<'c>(
    alloc: Global,
    bag: &mut [Certificate<'c>],
    target: &mut Certificate<'c>,
) -> Result<PoliciesApart<'c>, (usize, CertFault)>
    ensures bag { IfOk result (λ read. AreAllTaken bag.old read.bag.items) }
    ensures target { IfOk result (λ read. policy_certificate (seen_certificate target.old)
        ≡ Ok (seen_policy_certificate read.target)) }
    ensures apart { OnOk result (map seen_certificate bag.new ≡ map seen_apart bag.old) }
    ensures target_apart { OnOk result (seen_certificate target.new ≡ seen_apart target.old) }
    ensures refused { IfErr result (λ refusal.
        IsRefusedInSearch bag.old target.old refusal.0 refusal.1) }
{
    let read = match PolicyCertificate::read(alloc, target) {
        Ok(read) => read,
        Err(fault) => return Err((bag.len(), fault)),
    };
    match policies_apart(alloc, bag) {
        Ok(bag) => {
            target.extensions.needs_policy_processing = false;
            Ok(PoliciesApart { bag, target: read })
        }
        Err(refusal) => Err(refusal),
    }
}
