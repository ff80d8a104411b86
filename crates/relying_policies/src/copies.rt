//! Copies of what counts of certificates for policies.

ghost use Rattle.std.specs.Prelude.{◌≡◌, IfOk};
ghost use Rattle.asn.specs.Walk.{seen};
ghost use Rattle.cert_policies.specs.PolicyExtensions.{seen_policies, seen_policy_extensions};
ghost use Rattle.path_policies.specs.Seen.{seen_policy_certificate};

use asn::Oid;
use cert_policies::PolicyExtensions;
use path_policies::PolicyCertificate;
use std::alloc::{AllocError, Global};

/// The same elements.
fn copied<T: Copy>(alloc: Global, items: &[T]) -> Result<Vec<T>, AllocError>
    ensures { IfOk result (λ copy. copy.items ≡ items.now) }
{
    let mut copy = Vec::new(alloc);
    copy.extend_from_slice(items)?;
    Ok(copy)
}

/// The same policies, if any are stated.
fn copied_policies<'c>(
    alloc: Global,
    policies: Option<&Vec<Oid<'c>>>,
) -> Result<Option<Vec<Oid<'c>>>, AllocError>
    ensures { IfOk result (λ copy. seen seen_policies copy
        ≡ seen (λ one. seen_policies one.now) policies.entry) }
{
    match policies {
        None => Ok(None),
        Some(policies) => Ok(Some(copied(alloc, policies.as_slice())?)),
    }
}

/// The same of the extensions.
fn copied_extensions<'c>(
    alloc: Global,
    read: &PolicyExtensions<'c>,
) -> Result<PolicyExtensions<'c>, AllocError>
    ensures { IfOk result (λ copy. seen_policy_extensions copy
        ≡ seen_policy_extensions read.now) }
{
    Ok(PolicyExtensions {
        policies: copied_policies(alloc, read.policies.as_ref())?,
        mappings: copied(alloc, read.mappings.as_slice())?,
        require_explicit_policy: read.require_explicit_policy,
        inhibit_policy_mapping: read.inhibit_policy_mapping,
        inhibit_any_policy: read.inhibit_any_policy,
    })
}

/// The same of a certificate.
pub(crate) fn copy_of<'c>(
    alloc: Global,
    certificate: &PolicyCertificate<'c>,
) -> Result<PolicyCertificate<'c>, AllocError>
    ensures { IfOk result (λ copy. seen_policy_certificate copy
        ≡ seen_policy_certificate certificate.now) }
{
    Ok(PolicyCertificate {
        self_issued: certificate.self_issued,
        extensions: copied_extensions(alloc, &certificate.extensions)?,
    })
}
