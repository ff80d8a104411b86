//! Which certificates issued which, and which anchors did: what a verifier says of those whose names match.

ghost use Rattle.std.specs.Prelude.{◌≡◌, ◌+◌, ◌*◌, ◌<◌, None, IfOk, IfSome, length};
ghost use Rattle.path_issuers.specs.View.{seen_search};
ghost use Rattle.path_issuers.specs.Asking.{count_pairs};
ghost use Rattle.path_issuers.specs.Asking.{AreAnchors, IsWithin};
ghost use Rattle.path_issuers.specs.Links.{AreLinks, seen_links};
ghost use Rattle.path_issuers.specs.Lists.{lists_of};
ghost use Rattle.path_issuers.specs.Naming.{IsNaming};

use crate::downward::{anchors_of_all, issued_by_reached, see_anchored};
use crate::links::Links;
use crate::lists::turned;
use crate::naming::Naming;
use crate::search::Search;
use path_verifiers::Verifier;
use std::alloc::{AllocError, Global};

/// Links those that are reached from the anchors. `None` if the questions that are left do not suffice.
fn link_reached<V: Verifier>(
    alloc: Global,
    verifier: &V,
    search: &Search<'_, '_>,
    naming: &Naming,
    left: &mut usize,
    anchors: Vec<Vec<usize>>,
) -> Result<Option<Links>, AllocError>
    requires naming { IsNaming (seen_search search.now) naming.now }
    requires anchors { AreAnchors (V.accepts verifier.now) (seen_search search.now) naming.now
        (length search.now.bag.now + 1) (lists_of anchors.items) }
    ensures links { IfOk result (λ found. IfSome found (λ links.
        AreLinks (V.accepts verifier.now) (seen_search search.now) (seen_links links))) }
    ensures spent { IfOk result (λ found.
        IsWithin ((length search.now.bag.now + 1) * length search.now.bag.now)
        left.old left.new found) }
{
    let count = search.bag.len();
    let reached = see_anchored(alloc, &anchors, count)?;
    let Some(issued) = issued_by_reached(alloc, verifier, search, naming, left, reached)? else {
        return Ok(None);
    };
    Ok(Some(Links {
        issuers: turned(alloc, &issued, count + 1)?,
        anchors,
    }))
}

/// Asks who issued whom, among those whose names match and from which a path may lead to the target: each anchor, and each authority under
/// one that issued it. `None` if the verifier would be asked more often than that.
pub fn link<V: Verifier>(
    alloc: Global,
    verifier: &V,
    search: &Search<'_, '_>,
    signatures: usize,
) -> Result<Option<Links>, AllocError>
    ensures links { IfOk result (λ found. IfSome found (λ links.
        AreLinks (V.accepts verifier.now) (seen_search search.now) (seen_links links))) }
    ensures spent { IfOk result (λ found.
        found ≡ None → signatures < count_pairs (seen_search search.now)) }
{
    let naming = Naming::new(alloc, search)?;
    let mut left = signatures;
    let Some(anchors) = anchors_of_all(alloc, verifier, search, &naming, &mut left)? else {
        return Ok(None);
    };
    link_reached(alloc, verifier, search, &naming, &mut left, anchors)
}
