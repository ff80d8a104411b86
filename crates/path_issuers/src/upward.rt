//! Who issued whom, of all from whom names lead to the target.

ghost use Rattle.std.specs.Prelude.{◌↔◌, ◌+◌, ◌*◌, IfOk, IfSome, IsTrue, length};
ghost use Rattle.path.specs.Query.{Accepts};
ghost use Rattle.path_issuers.specs.View.{seen_search};
ghost use Rattle.path_issuers.specs.Asking.{ArePicked, IsWithin};
ghost use Rattle.path_issuers.specs.Links.{seen_links};
ghost use Rattle.path_issuers.specs.Lists.{lists_of};
ghost use Rattle.path_issuers.specs.Naming.{IsNaming};
ghost use Rattle.path_issuers.specs.Upward.{AreAuthorityLinks, AreIssued, AreSigners, IsAuthorityAt};

use crate::alone::is_right_as_authority;
use crate::asking::{Sought, add_if, pick};
use crate::links::Links;
use crate::lists::turned;
use crate::naming::Naming;
use crate::search::Search;
use path_verifiers::Verifier;
use std::alloc::{AllocError, Global};

/// For each certificate of the bag, those that lead to the target by names and that it issued, whether it is an authority or not.
fn issued_by_each<V: Verifier>(
    alloc: Global,
    verifier: &V,
    search: &Search<'_, '_>,
    naming: &Naming,
    left: &mut usize,
) -> Result<Option<Vec<Vec<usize>>>, AllocError>
    requires { IsNaming (seen_search search.now) naming.now }
    ensures issued { IfOk result (λ found. IfSome found (λ issued.
        AreIssued (V.accepts verifier.now) (seen_search search.now) naming.now
        (length search.now.bag.now) (lists_of issued.items))) }
    ensures spent { IfOk result (λ found.
        IsWithin ((length search.now.bag.now + 1) * length search.now.bag.now)
        left.old left.new found) }
{
    let mut all = Vec::new(alloc);
    for place in 0..search.bag.len() {
        let sought = Sought::IssuedBy(place);
        let places = naming.named_by(place);
        let Some(issued) = pick(alloc, verifier, search, left, sought, places)? else {
            return Ok(None);
        };
        all.push(issued)?;
    }
    Ok(Some(all))
}

/// For each certificate of the bag, and for the target, those that issued it, whether they are authorities or not; where it leads to the
/// target by names. `None` if the questions that are left do not suffice.
pub fn signers<V: Verifier>(
    alloc: Global,
    verifier: &V,
    search: &Search<'_, '_>,
    left: &mut usize,
) -> Result<Option<Vec<Vec<usize>>>, AllocError>
    ensures signers { IfOk result (λ found. IfSome found (λ signers.
        AreSigners (V.accepts verifier.now) (seen_search search.now) (lists_of signers.items))) }
    ensures spent { IfOk result (λ found.
        IsWithin ((length search.now.bag.now + 1) * length search.now.bag.now)
        left.old left.new found) }
{
    let naming = Naming::new(alloc, search)?;
    let Some(issued) = issued_by_each(alloc, verifier, search, &naming, left)? else {
        return Ok(None);
    };
    Ok(Some(turned(alloc, &issued, search.bag.len() + 1)?))
}

/// Whether an authority stands at the place.
fn is_authority_at(search: &Search<'_, '_>, place: usize) -> bool
    ensures { IsTrue result ↔ IsAuthorityAt (seen_search search.now) place }
{
    is_right_as_authority(search.certificate_at(place), search.moment, search.options)
}

/// Of the places, those of authorities.
fn pick_authorities(
    alloc: Global,
    search: &Search<'_, '_>,
    places: &[usize],
) -> Result<Vec<usize>, AllocError>
    ensures { IfOk result (λ picked.
        ArePicked (IsAuthorityAt (seen_search search.now)) places.now picked.items) }
{
    let mut picked = Vec::new(alloc);
    for place in places {
        add_if(&mut picked, *place, is_authority_at(search, *place))?;
    }
    Ok(picked)
}

/// Links to the authorities among those that issued a certificate, and to no anchor.
pub fn link_authorities(
    alloc: Global,
    search: &Search<'_, '_>,
    signers: &[Vec<usize>],
) -> Result<Links, AllocError>
    ensures { IfOk result (λ links. (accepts : Accepts)
        → AreSigners accepts (seen_search search.now) (lists_of signers.now)
        → AreAuthorityLinks accepts (seen_search search.now) (seen_links links)) }
{
    let mut issuers = Vec::new(alloc);
    for places in signers {
        issuers.push(pick_authorities(alloc, search, places)?)?;
    }
    Ok(Links {
        issuers,
        anchors: Vec::new(alloc),
    })
}
