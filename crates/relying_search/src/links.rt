//! The certificates of a path that was found.

ghost use Rattle.std.specs.Prelude.{◌≡◌, IfOk, map};
ghost use Rattle.path_search.specs.Answer.{seen_candidate};
ghost use Rattle.path_issuers.specs.View.{seen_search};
ghost use Rattle.path_issuers.specs.Search.{query_about};
ghost use Rattle.relying_agreement.specs.Link.{links_of};
ghost use Rattle.relying_search.specs.View.{seen_link};

use crate::link::Link;
use path_search::{Candidate, Issuer, Search};
use std::alloc::{AllocError, Global};

/// The certificates of the candidate's path below the anchor, each with the one above it, from the anchor downward.
pub fn links_of_candidate<'p, 'c>(
    alloc: Global,
    search: &Search<'p, 'c>,
    candidate: &Candidate,
) -> Result<Vec<Link<'p, 'c>>, AllocError>
    ensures { IfOk result (λ links. map seen_link links.items
        ≡ links_of (query_about (seen_search search.now) (seen_candidate candidate.now))) }
{
    let count = candidate.above.len();
    let mut links = Vec::with_capacity(alloc, count + 1)?;
    let mut issuer = search.issuer_at(Issuer::Anchor(candidate.anchor));
    for index in 0..count {
        let certificate = search.certificate_at(candidate.above[count - 1 - index]);
        links.push(Link {
            number: index + 1,
            issuer,
            certificate,
        })?;
        issuer = certificate;
    }
    links.push(Link {
        number: count + 1,
        issuer,
        certificate: search.target,
    })?;
    Ok(links)
}
