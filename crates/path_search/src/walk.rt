//! The walk from the target upward, which hands out the valid candidates in order.

ghost use Rattle.std.specs.Prelude.{◌↔◌, IfErr, IfOk, IsTrue, None};
ghost use Rattle.path.specs.Query.{Accepts};
ghost use Rattle.path_issuers.specs.View.{seen_search};
ghost use Rattle.path_issuers.specs.Links.{AreLinks, seen_links};
ghost use Rattle.path_search.specs.Paths.{IsWalk, WalkStays, WalksOn};
ghost use Rattle.path_search.specs.Queue.{places_of};
ghost use Rattle.path_search.specs.Walk.{AreFirst, HasRightTarget};

use crate::answer::Answer;
use crate::ground::{Ground, authorities_of};
use crate::queue::Queue;
use path_issuers::{Links, Search, is_right_as_target};
use std::alloc::{AllocError, Global};

/// Whether the target may stand at the end of a path, by itself.
pub(crate) fn has_right_target(search: &Search<'_, '_>) -> bool
    ensures { IsTrue result ↔ HasRightTarget (seen_search search.now) }
{
    is_right_as_target(search.target, search.moment, search.purpose, search.options)
}

/// The tail that has the target alone, if it is right.
pub(crate) fn first_tails(
    alloc: Global,
    search: &Search<'_, '_>,
) -> Result<Vec<Vec<usize>>, AllocError>
    ensures { IfOk result (λ tails. AreFirst (seen_search search.now) (places_of tails)) }
{
    let mut tails = Vec::new(alloc);
    if !has_right_target(search) {
        return Ok(tails);
    }
    tails.push(Vec::new(alloc))?;
    Ok(tails)
}

/// A walk over a search, which stands behind the last candidate that it handed out.
#[derive(Drop)]
pub(crate) struct Walk<'s, 'p, 'c> {
    ground: Ground<'s, 'p, 'c>,
    queue: Queue,
}

impl<'s, 'p, 'c> Walk<'s, 'p, 'c> {
    /// A walk that stands before all candidates.
    pub(crate) fn new(
        alloc: Global,
        links: Links,
        search: &'s Search<'p, 'c>,
    ) -> Result<Walk<'s, 'p, 'c>, AllocError>
        ensures { IfOk result (λ walk. (accepts : Accepts)
            → AreLinks accepts (seen_search search.now) (seen_links links)
            → IsWalk accepts (seen_search search.now) None walk) }
    {
        let authorities = authorities_of(alloc, search.bag)?;
        let queue = Queue::new(first_tails(alloc, search)?);
        let ground = Ground {
            search,
            links,
            authorities,
        };
        Ok(Walk { ground, queue })
    }

    /// The next valid candidate. After `GaveUp`, or once there is memory, the walk goes on where it stopped.
    pub(crate) fn next(&mut self, alloc: Global, steps: usize) -> Result<Answer, AllocError>
        ensures answers { IfOk result (WalksOn steps self.old self.new) }
        ensures kept { IfErr result (λ e. WalkStays self.old self.new) }
    {
        self.ground.next(alloc, &mut self.queue, steps)
    }
}
