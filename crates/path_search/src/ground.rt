//! What a walk from the target upward goes by.

ghost use Rattle.std.specs.Prelude.{◌≡◌, ◌↔◌, ◌<◌, IfOk, IfSome, IsTrue, length, map, slice_get};
ghost use Rattle.cert.specs.Certificate.{seen_certificate};
ghost use Rattle.path_issuers.specs.View.{seen_search};
ghost use Rattle.path_issuers.specs.Links.{seen_links};
ghost use Rattle.path_search.specs.Walk.{MayStandAbove, anchors_above, issuers_above, top_of};

use crate::authority::Authority;
use crate::tail::Tail;
use cert::Certificate;
use path_issuers::{Links, Search};
use std::alloc::{AllocError, Global};

/// What a walk goes by: a search, who issued whom in it, and each certificate of its bag with its name constraints at hand.
#[derive(Drop)]
pub(crate) struct Ground<'s, 'p, 'c> {
    pub(crate) search: &'s Search<'p, 'c>,
    pub(crate) links: Links,
    pub(crate) authorities: Vec<Authority<'p, 'c>>,
    ghost agree: { authorities.items ≡ map seen_certificate search.now.bag.now },
}

/// Each certificate, with its name constraints at hand.
pub(crate) fn authorities_of<'p, 'c>(
    alloc: Global,
    bag: &'p [Certificate<'c>],
) -> Result<Vec<Authority<'p, 'c>>, AllocError>
    ensures { IfOk result (λ authorities. authorities.items ≡ map seen_certificate bag.now) }
{
    let mut authorities = Vec::new(alloc);
    for certificate in bag {
        authorities.push(Authority::new(alloc, certificate)?)?;
    }
    Ok(authorities)
}

impl<'s, 'p, 'c> Ground<'s, 'p, 'c> {
    /// The place of the certificate at the top; that of the target is behind the bag.
    pub(crate) fn top(&self, above: &[usize]) -> usize
        ensures { result ≡ top_of (length self.now.search.now.bag.now) above.now }
    {
        match above.last() {
            None => self.search.bag.len(),
            Some(place) => *place,
        }
    }

    /// One of the anchors that issued the top, by its number.
    pub(crate) fn anchor(&self, above: &[usize], number: usize) -> Option<usize>
        ensures value { result
            ≡ slice_get (anchors_above (seen_search self.now.search.now)
            (seen_links self.now.links) above.now) number }
        ensures small { IfSome result (λ anchor. number < usize.MAX) }
    {
        match self.links.anchors.get(self.top(above)) {
            None => None,
            Some(anchors) => anchors.get(number).copied(),
        }
    }

    /// One of the certificates that issued the top, by its number. None if a path has no room for one more, of 128.
    pub(crate) fn issuer(&self, above: &[usize], number: usize) -> Option<usize>
        ensures value { result
            ≡ slice_get (issuers_above (seen_search self.now.search.now)
            (seen_links self.now.links) above.now) number }
        ensures small { IfSome result (λ place. number < usize.MAX) }
    {
        if above.len() >= 127 {
            return None;
        }
        match self.links.issuers.get(self.top(above)) {
            None => None,
            Some(issuers) => issuers.get(number).copied(),
        }
    }

    /// Whether the certificate at the place fits above the tail.
    pub(crate) fn may_stand(&self, above: &[usize], place: usize) -> bool
        ensures { IsTrue result
            ↔ MayStandAbove (seen_search self.now.search.now) above.now place }
    {
        let tail = Tail {
            bag: self.search.bag,
            target: self.search.target,
            above,
        };
        match self.authorities.get(place) {
            None => false,
            Some(authority) => authority.fits_above(&tail),
        }
    }
}
