//! Who issued whom, from the anchors downward.

ghost use Rattle.std.specs.Prelude.{◌≡◌, ◌↔◌, ◌+◌, ◌*◌, ◌<◌, IfOk, IfSome, IsTrue, OnOk, ℕ, length, slice_set, vec_len};
ghost use Rattle.cert.specs.Certificate.{seen_certificate};
ghost use Rattle.path_issuers.specs.View.{seen_search};
ghost use Rattle.path_issuers.specs.Asking.{AllWait, AreAnchors, AreIssuedBy, AreReached, IsWithin, SeesAnchored, SeesEach};
ghost use Rattle.path_issuers.specs.Factors.{IsRightAsAuthority};
ghost use Rattle.path_issuers.specs.Frontier.{Grows, left_of};
ghost use Rattle.path_issuers.specs.Lists.{lists_of};
ghost use Rattle.path_issuers.specs.Naming.{IsNaming};

use crate::alone::is_right_as_authority;
use crate::asking::{Sought, pick};
use crate::frontier::Frontier;
use crate::lists::empty_lists;
use crate::naming::Naming;
use crate::search::Search;
use cert::Certificate;
use path_verifiers::Verifier;
use std::alloc::{AllocError, Global};

/// For each certificate that leads to the target by names, the anchors that issued it.
pub(crate) fn anchors_of_all<V: Verifier>(
    alloc: Global,
    verifier: &V,
    search: &Search<'_, '_>,
    naming: &Naming,
    left: &mut usize,
) -> Result<Option<Vec<Vec<usize>>>, AllocError>
    requires { IsNaming (seen_search search.now) naming.now }
    ensures anchors { IfOk result (λ found. IfSome found (λ anchors.
        AreAnchors (V.accepts verifier.now) (seen_search search.now) naming.now
        (length search.now.bag.now + 1) (lists_of anchors.items))) }
    ensures spent { IfOk result (λ found.
        IsWithin ((length search.now.bag.now + 1) * length search.now.anchors.now)
        left.old left.new found) }
{
    let mut anchors = Vec::new(alloc);
    for below in 0..search.bag.len() + 1 {
        let sought = Sought::AnchorsOf(below);
        let places = naming.anchors_naming(below);
        let Some(found) = pick(alloc, verifier, search, left, sought, places)? else {
            return Ok(None);
        };
        anchors.push(found)?;
    }
    Ok(Some(anchors))
}

/// Whether the certificate may stand above others in a path, by itself.
fn is_authority(search: &Search<'_, '_>, certificate: &Certificate<'_>) -> bool
    ensures { IsTrue result
        ↔ IsRightAsAuthority (seen_search search.now).options (seen_search search.now).moment
        (seen_certificate certificate.now) }
{
    is_right_as_authority(certificate, search.moment, search.options)
}

/// The certificates that lead to the target by names and were issued by the one at the place; none if that is no authority.
fn issued_by<V: Verifier>(
    alloc: Global,
    verifier: &V,
    search: &Search<'_, '_>,
    naming: &Naming,
    left: &mut usize,
    place: usize,
) -> Result<Option<Vec<usize>>, AllocError>
    requires { IsNaming (seen_search search.now) naming.now }
    ensures issued { IfOk result (λ found. IfSome found (λ issued.
        AreIssuedBy (V.accepts verifier.now) (seen_search search.now) naming.now place
        issued.items)) }
    ensures spent { IfOk result (λ found.
        IsWithin (length search.now.bag.now + 1) left.old left.new found) }
{
    let Some(issuer) = search.bag.get(place) else {
        return Ok(Some(Vec::new(alloc)));
    };
    if !is_authority(search, issuer) {
        return Ok(Some(Vec::new(alloc)));
    }
    let sought = Sought::IssuedBy(place);
    let places = naming.named_by(place);
    pick(alloc, verifier, search, left, sought, places)
}

/// Sees the places that have an anchor.
pub(crate) fn see_anchored(
    alloc: Global,
    anchors: &[Vec<usize>],
    count: usize,
) -> Result<Frontier, AllocError>
    ensures count { IfOk result (λ frontier. vec_len frontier.seen ≡ count) }
    ensures left { IfOk result (λ frontier. left_of frontier ≡ count) }
    ensures seen { IfOk result (λ frontier. SeesAnchored count (lists_of anchors.now) frontier) }
    ensures wait { IfOk result (λ frontier. AllWait frontier) }
{
    let mut frontier = Frontier::new(alloc, count)?;
    for (place, list) in anchors.iter().enumerate() {
        if !list.is_empty() {
            frontier.see(place)?;
        }
    }
    Ok(frontier)
}

/// Sees each place; the target is not among those of the walk.
fn see_each(frontier: &mut Frontier, places: &[usize]) -> Result<(), AllocError>
    ensures grows { OnOk result (Grows frontier.old frontier.new) }
    ensures seen { OnOk result (SeesEach places.now frontier.old frontier.new) }
{
    for place in places {
        frontier.see(*place)?;
    }
    Ok(())
}

/// Writes a list at a place, if it is there.
fn put(lists: &mut Vec<Vec<usize>>, place: usize, list: Vec<usize>)
    ensures { lists_of lists.new.items ≡ slice_set (lists_of lists.old.items) place list.items }
{
    if let Some(at) = lists.get_mut(place) {
        *at = list;
    }
}

/// For each certificate that is reached, those that it issued; each of these is reached then. Each that is reached is asked about once.
pub(crate) fn issued_by_reached<V: Verifier>(
    alloc: Global,
    verifier: &V,
    search: &Search<'_, '_>,
    naming: &Naming,
    left: &mut usize,
    reached: Frontier,
) -> Result<Option<Vec<Vec<usize>>>, AllocError>
    requires naming { IsNaming (seen_search search.now) naming.now }
    requires count { vec_len reached.seen ≡ length search.now.bag.now }
    requires left { left_of reached ≡ length search.now.bag.now }
    requires wait { AllWait reached }
    ensures issued { IfOk result (λ found. IfSome found (λ issued.
        AreReached (V.accepts verifier.now) (seen_search search.now) naming.now reached
        (lists_of issued.items))) }
    ensures spent { IfOk result (λ found.
        IsWithin ((length search.now.bag.now + 1) * length search.now.bag.now)
        left.old left.new found) }
{
    let mut frontier = reached;
    let mut issued = empty_lists(alloc, search.bag.len())?;
    while let Some(place) = frontier.next() {
        let Some(list) = issued_by(alloc, verifier, search, naming, left, place)? else {
            return Ok(None);
        };
        see_each(&mut frontier, &list)?;
        put(&mut issued, place, list);
    }
    Ok(Some(issued))
}
