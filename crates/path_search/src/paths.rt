//! The valid paths to a certificate, one after the other (RFC 4158).

ghost use Rattle.std.specs.Prelude.{◌≡◌, ◌<◌, IfErr, IfOk, IfSome, None};
ghost use Rattle.path_search.specs.Answer.{IsAnswer};
ghost use Rattle.path_issuers.specs.View.{seen_search};
ghost use Rattle.path_issuers.specs.Asking.{count_pairs};
ghost use Rattle.path_issuers.specs.Links.{AreLinks, seen_links};
ghost use Rattle.path_search.specs.Paths.{AnswersNext, ArePaths, MayWalk, PathsStay};

use crate::answer::{Answer, Budget};
use crate::walk::{Walk, has_right_target};
use path_issuers::{Links, Search, link};
use path_verifiers::Verifier;
use std::alloc::{AllocError, Global};

/// The valid paths of a search, in order.
#[derive(Drop)]
pub struct Paths<'s, 'p, 'c> {
    /// None if the verifier would have had to be asked too often.
    walk: Option<Walk<'s, 'p, 'c>>,
    budget: Budget,
}

/// Who issued whom. The verifier is not asked about a target that cannot stand at the end of a path.
fn links_for<V: Verifier>(
    alloc: Global,
    verifier: &V,
    search: &Search<'_, '_>,
    signatures: usize,
) -> Result<Option<Links>, AllocError>
    ensures links { IfOk result (λ found. IfSome found
        (λ links. AreLinks (V.accepts verifier.now) (seen_search search.now) (seen_links links))) }
    ensures spent { IfOk result
        (λ found. found ≡ None → signatures < count_pairs (seen_search search.now)) }
{
    if has_right_target(search) {
        return link(alloc, verifier, search, signatures);
    }
    Ok(Some(Links {
        issuers: Vec::new(alloc),
        anchors: Vec::new(alloc),
    }))
}

/// The walk over a search, if the verifier is asked no more often than that.
fn walk_over<'s, 'p, 'c, V: Verifier>(
    alloc: Global,
    verifier: &V,
    search: &'s Search<'p, 'c>,
    budget: Budget,
) -> Result<Option<Walk<'s, 'p, 'c>>, AllocError>
    ensures { IfOk result
        (MayWalk (V.accepts verifier.now) (seen_search search.now) budget None) }
{
    match links_for(alloc, verifier, search, budget.signatures)? {
        None => Ok(None),
        Some(links) => Ok(Some(Walk::new(alloc, links, search)?)),
    }
}

impl<'s, 'p, 'c> Paths<'s, 'p, 'c> {
    /// Asks the verifier who issued whom. It is not asked later.
    pub fn new<V: Verifier>(
        alloc: Global,
        verifier: &V,
        search: &'s Search<'p, 'c>,
        budget: Budget,
    ) -> Result<Paths<'s, 'p, 'c>, AllocError>
        ensures { IfOk result
            (ArePaths (V.accepts verifier.now) (seen_search search.now) budget None) }
    {
        let walk = walk_over(alloc, verifier, search, budget)?;
        Ok(Paths { walk, budget })
    }

    /// The next path, behind those that were answered before. If memory runs out, the same one is looked for again.
    pub fn next(&mut self, alloc: Global) -> Result<Answer, AllocError>
        ensures answers { IfOk result (AnswersNext self.old self.new) }
        ensures kept { IfErr result (λ e. PathsStay self.old self.new) }
    {
        match &mut self.walk {
            None => Ok(Answer::GaveUp),
            Some(walk) => walk.next(alloc, self.budget.steps),
        }
    }
}

/// The first valid path: the shortest, and of these the one with the lesser places, from the target upward, and then of the anchor.
pub fn find<V: Verifier>(
    alloc: Global,
    verifier: &V,
    search: &Search<'_, '_>,
    budget: Budget,
) -> Result<Answer, AllocError>
    ensures { IfOk result
        (IsAnswer (V.accepts verifier.now) (seen_search search.now) budget) }
{
    let mut paths = Paths::new(alloc, verifier, search, budget)?;
    paths.next(alloc)
}
