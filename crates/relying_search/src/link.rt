//! The certificates of a path, each with the one above it.

ghost use Rattle.std.specs.Prelude.{◌≡◌, IfOk, map};
ghost use Rattle.cert.specs.Certificate.{seen_certificate};
ghost use Rattle.relying_agreement.specs.Link.{links_from, own_scope};
ghost use Rattle.relying_agreement.specs.Status.{may_sign_crls};
ghost use Rattle.relying_search.specs.View.{seen_link};

use cert::Certificate;
use statements_facts::Scope;
use std::alloc::{AllocError, Global};

/// The bit of keyUsage that lets a key sign lists (RFC 5280, 4.2.1.3).
const CRL_SIGN: u8 = 6;

/// A certificate of a path with the one above it, which issued it.
#[derive(Clone, Copy)]
pub struct Link<'p, 'c> {
    /// The number of the certificate on the path, from 1 on.
    pub number: usize,
    pub issuer: &'p Certificate<'c>,
    pub certificate: &'p Certificate<'c>,
}

/// Whether the certificate is that of an authority or of a user (RFC 5280, 5.2.5).
pub fn own_scope(certificate: &Certificate<'_>) -> Scope
    ensures { result ≡ own_scope (seen_certificate certificate.now) }
{
    match certificate.extensions.basic_constraints {
        None => Scope::User,
        Some(constraints) => {
            if constraints.ca {
                Scope::Ca
            } else {
                Scope::User
            }
        }
    }
}

/// Whether lists of the issuer count: it is the anchor, has no keyUsage, or has one with cRLSign (RFC 5280, 6.3.3 (f)).
pub fn may_sign_crls(link: &Link<'_, '_>) -> bool
    ensures { result ≡ may_sign_crls (seen_link link.now) }
{
    if link.number == 1 {
        return true;
    }
    match link.issuer.extensions.key_usage {
        None => true,
        Some(usage) => usage.has(CRL_SIGN),
    }
}

/// The certificates of a path below the anchor, each with the one above it.
pub fn links_of<'p, 'c>(
    alloc: Global,
    anchor: &'p Certificate<'c>,
    path: &'p [Certificate<'c>],
) -> Result<Vec<Link<'p, 'c>>, AllocError>
    ensures { IfOk result (λ links. map seen_link links.items
        ≡ links_from 1 (seen_certificate anchor.now) (map seen_certificate path.now)) }
{
    let mut links = Vec::with_capacity(alloc, path.len())?;
    let mut issuer = anchor;
    for (index, certificate) in path.iter().enumerate() {
        links.push(Link {
            number: index + 1,
            issuer,
            certificate,
        })?;
        issuer = certificate;
    }
    Ok(links)
}
