//! All right ends of paths, and the first of the longest.

ghost use Rattle.std.specs.Prelude.{◌≡◌, ◌<◌, IfOk, vec_len};
ghost use Rattle.path.specs.Query.{Accepts};
ghost use Rattle.path_issuers.specs.View.{seen_search};
ghost use Rattle.path_search.specs.Collecting.{AreTailsWithin, IsFirstLongest, IsFurthestWithin, IsLonger, IsAtNextTail, Passes};
ghost use Rattle.path_issuers.specs.Links.{seen_links};
ghost use Rattle.path_issuers.specs.Lists.{lists_of};
ghost use Rattle.path_issuers.specs.Upward.{AreAuthorityLinks};
ghost use Rattle.path_search.specs.Walk.{HasRightTarget, IsBounded};

use crate::ground::Ground;
use crate::queue::Queue;
use crate::walk::first_tails;
use path_issuers::list_at;
use std::alloc::{AllocError, Global};

/// The place of the longer one of two lists; if they are as long, the first.
fn longer(lists: &[Vec<usize>], one: usize, other: usize) -> usize
    ensures { IsLonger (lists_of lists.now) one other result }
{
    if list_at(lists, one).len() < list_at(lists, other).len() {
        other
    } else {
        one
    }
}

/// The place of the first of the longest lists.
fn first_longest(lists: &[Vec<usize>]) -> usize
    ensures { IsFirstLongest (lists_of lists.now) result }
{
    let mut longest = 0;
    for place in 0..lists.len() {
        longest = longer(lists, longest, place);
    }
    longest
}

impl<'s, 'p, 'c> Ground<'s, 'p, 'c> {
    /// Puts the tails that grow out of the next one behind the others, and goes on to the one behind it. `false` if there was no room.
    fn pass(&self, alloc: Global, queue: &mut Queue, steps: usize) -> Result<bool, AllocError>
        requires { queue.old.index < vec_len queue.old.tails }
        ensures passes { IfOk result
            (Passes (seen_search self.now.search.now) (seen_links self.now.links) steps queue.old
            queue.new) }
        ensures past { IfOk result (λ passed. IsAtNextTail queue.old queue.new passed) }
        ensures bounded { IfOk result (λ passed. IsBounded steps queue.old queue.new) }
    {
        let above = Vec::from_slice(alloc, &queue.tails[queue.index])?;
        if !self.grow(alloc, queue, &above, steps)? {
            return Ok(false);
        }
        queue.index += 1;
        queue.tried = 0;
        Ok(true)
    }

    /// All right tails, in order. `None` if there are more than so many.
    fn all_tails(&self, alloc: Global, steps: usize) -> Result<Option<Vec<Vec<usize>>>, AllocError>
        ensures { IfOk result (λ found. (accepts : Accepts)
            → AreAuthorityLinks accepts (seen_search self.now.search.now)
            (seen_links self.now.links)
            → AreTailsWithin accepts (seen_search self.now.search.now) steps found) }
    {
        let mut queue = Queue::new(first_tails(alloc, self.search)?);
        while queue.index < queue.tails.len() {
            if !self.pass(alloc, &mut queue, steps)? {
                return Ok(None);
            }
        }
        Ok(Some(queue.tails))
    }

    /// The tail that got furthest: the longest one, and of these the first. `None` if there are more than so many tails.
    pub(crate) fn furthest(
        &self,
        alloc: Global,
        steps: usize,
    ) -> Result<Option<Vec<usize>>, AllocError>
        ensures { IfOk result (λ found. (accepts : Accepts)
            → AreAuthorityLinks accepts (seen_search self.now.search.now)
            (seen_links self.now.links)
            → HasRightTarget (seen_search self.now.search.now)
            → IsFurthestWithin accepts (seen_search self.now.search.now) steps found) }
    {
        let Some(tails) = self.all_tails(alloc, steps)? else {
            return Ok(None);
        };
        let longest = list_at(&tails, first_longest(&tails));
        Ok(Some(Vec::from_slice(alloc, longest)?))
    }
}
