//! Why no path to a certificate is found.

ghost use Rattle.std.specs.Prelude.{◌≡◌, IfOk, IfSome, length};
ghost use Rattle.path.specs.Query.{Accepts};
ghost use Rattle.path_issuers.specs.View.{seen_search};
ghost use Rattle.path_issuers.specs.Asking.{IsWithin};
ghost use Rattle.path_search.specs.Collecting.{IsFurthest};
ghost use Rattle.path_issuers.specs.Links.{seen_links};
ghost use Rattle.path_issuers.specs.Lists.{lists_of};
ghost use Rattle.path_issuers.specs.Upward.{AreSigners, AreAuthorityLinks};
ghost use Rattle.path_search.specs.Walk.{HasRightTarget};
ghost use Rattle.path_search.specs.Obstacles.{IsEnd};
ghost use Rattle.path_search.specs.WhyNot.{IsStuck, IsWhyNot};

use crate::answer::Budget;
use crate::ground::{Ground, authorities_of};
use crate::obstacles::{Obstacle, anchors_in_the_way};
use crate::reasons::unmet_by_target;
use path::Reason;
use path_issuers::{Search, link_authorities, signers};
use path_verifiers::Verifier;
use std::alloc::{AllocError, Global};

/// Where the paths to a target end, if it is right by itself: an end of a path that got furthest, and who has the name of the issuer of its
/// top. If nobody has it, the certificate of that issuer is missing.
#[derive(Debug, PartialEq, Eq, Drop)]
pub struct Stuck {
    /// The places in the bag of the certificates above the target, from the target upward: the longest that are right, and of these the
    /// ones with the lesser places.
    pub above: Vec<usize>,
    /// The anchors with that name whose keys do not accept the signature of the top. Nothing else can be wrong with an anchor.
    pub anchors: Vec<usize>,
    /// The certificates of the bag with that name.
    pub bag: Vec<Obstacle>,
}

/// Why no path to a target is found.
#[derive(Debug, PartialEq, Eq, Drop)]
pub enum WhyNot {
    /// The target cannot stand at the end of a path: of the conditions that it does not meet by itself, the one of the least rank.
    Target(Reason),
    /// Nobody at hand can stand above the end of a path that got furthest.
    Stuck(Stuck),
}

/// What a walk goes by that finds all tails.
fn ground_below<'s, 'p, 'c>(
    alloc: Global,
    search: &'s Search<'p, 'c>,
    signers: &[Vec<usize>],
) -> Result<Ground<'s, 'p, 'c>, AllocError>
    ensures search { IfOk result (λ ground.
        seen_search ground.search.now ≡ seen_search search.now) }
    ensures links { IfOk result (λ ground. (accepts : Accepts)
        → AreSigners accepts (seen_search search.now) (lists_of signers.now)
        → AreAuthorityLinks accepts (seen_search search.now) (seen_links ground.links)) }
{
    let links = link_authorities(alloc, search, signers)?;
    let authorities = authorities_of(alloc, search.bag)?;
    Ok(Ground {
        search,
        links,
        authorities,
    })
}

/// What is above the tail that got furthest.
fn stuck_at<V: Verifier>(
    alloc: Global,
    verifier: &V,
    ground: &Ground<'_, '_, '_>,
    left: &mut usize,
    signers: &[Vec<usize>],
    above: Vec<usize>,
) -> Result<Option<Stuck>, AllocError>
    requires signers { AreSigners (V.accepts verifier.now)
        (seen_search ground.now.search.now) (lists_of signers.now) }
    requires furthest { IsFurthest (V.accepts verifier.now)
        (seen_search ground.now.search.now) above.items }
    ensures stuck { IfOk result (λ found. IfSome found
        (IsStuck (V.accepts verifier.now) (seen_search ground.now.search.now))) }
    ensures spent { IfOk result (λ found.
        IsWithin (length ground.now.search.now.anchors.now) left.old left.new found) }
{
    let top = ground.top(&above);
    let Some(anchors) = anchors_in_the_way(alloc, verifier, ground.search, left, top)? else {
        return Ok(None);
    };
    let bag = ground.obstacles(alloc, &above, signers)?;
    Ok(Some(Stuck {
        above,
        anchors,
        bag,
    }))
}

/// Where the paths to a target end that is right by itself.
fn furthest_end<V: Verifier>(
    alloc: Global,
    verifier: &V,
    search: &Search<'_, '_>,
    budget: Budget,
) -> Result<Option<Stuck>, AllocError>
    requires { HasRightTarget (seen_search search.now) }
    ensures { IfOk result (IsEnd (V.accepts verifier.now) (seen_search search.now) budget) }
{
    let mut left = budget.signatures;
    let Some(signers) = signers(alloc, verifier, search, &mut left)? else {
        return Ok(None);
    };
    let ground = ground_below(alloc, search, &signers)?;
    let Some(above) = ground.furthest(alloc, budget.steps)? else {
        return Ok(None);
    };
    stuck_at(alloc, verifier, &ground, &mut left, &signers, above)
}

/// Why no path is found. The answer says what is wrong if no candidate is valid; if one is, it is still true of the ends of paths, of which
/// an anchor may then have issued the top. `None` if more questions or steps were needed than may be spent.
pub fn why_not<V: Verifier>(
    alloc: Global,
    verifier: &V,
    search: &Search<'_, '_>,
    budget: Budget,
) -> Result<Option<WhyNot>, AllocError>
    ensures { IfOk result
        (IsWhyNot (V.accepts verifier.now) (seen_search search.now) budget) }
{
    if let Some(reason) = unmet_by_target(search) {
        return Ok(Some(WhyNot::Target(reason)));
    }
    match furthest_end(alloc, verifier, search, budget)? {
        None => Ok(None),
        Some(stuck) => Ok(Some(WhyNot::Stuck(stuck))),
    }
}
