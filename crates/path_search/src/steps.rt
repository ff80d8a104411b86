//! The steps of a walk from the target upward.

ghost use Rattle.std.specs.Prelude.{◌≡◌, ◌<◌, IfErr, IfOk, vec_len};
ghost use Rattle.path_issuers.specs.View.{seen_search};
ghost use Rattle.path_issuers.specs.Links.{seen_links};
ghost use Rattle.path_search.specs.Collecting.{GrowsOn};
ghost use Rattle.path_search.specs.Queue.{places_of};
ghost use Rattle.path_search.specs.Walk.{Answers, Grows, HasTried, IsAtSameTail, IsBounded, IsOnward, Stays, StaysAt, Steps, Turns};

use crate::answer::{Answer, Candidate};
use crate::ground::Ground;
use crate::queue::{Queue, push_above};
use std::alloc::{AllocError, Global};

impl<'s, 'p, 'c> Ground<'s, 'p, 'c> {
    /// Puts the tail with the certificate more behind the others, if it may stand there. `false` if there are `steps` tails already.
    fn try_above(
        &self,
        alloc: Global,
        tails: &mut Vec<Vec<usize>>,
        above: &[usize],
        place: usize,
        steps: usize,
    ) -> Result<bool, AllocError>
        ensures tried { IfOk result
            (HasTried (seen_search self.now.search.now) steps above.now place
            (places_of tails.old) (places_of tails.new)) }
        ensures kept { IfErr result (λ e. places_of tails.new ≡ places_of tails.old) }
    {
        if !self.may_stand(above, place) {
            return Ok(true);
        }
        if tails.len() >= steps {
            return Ok(false);
        }
        push_above(alloc, tails, above, place)?;
        Ok(true)
    }

    /// Tries each certificate that issued the top, from where the queue stands. `false` if there was no room for a tail.
    pub(crate) fn grow(
        &self,
        alloc: Global,
        queue: &mut Queue,
        above: &[usize],
        steps: usize,
    ) -> Result<bool, AllocError>
        ensures grows { IfOk result
            (Grows (seen_search self.now.search.now) (seen_links self.now.links) steps above.now
            queue.old queue.new) }
        ensures kept { IfErr result
            (λ e. StaysAt (seen_search self.now.search.now) (seen_links self.now.links) above.now
            queue.old queue.new) }
        ensures grows_on { IfOk result
            (GrowsOn (seen_search self.now.search.now) (seen_links self.now.links) steps above.now
            queue.old queue.new) }
        ensures stays { IfOk result (λ done. IsAtSameTail queue.old queue.new) }
        ensures bounded { IfOk result (λ done. IsBounded steps queue.old queue.new) }
    {
        while let Some(place) = self.issuer(above, queue.tried) {
            if !self.try_above(alloc, &mut queue.tails, above, place, steps)? {
                return Ok(false);
            }
            queue.tried += 1;
        }
        Ok(true)
    }

    /// Goes on to the next tail, once those that grow out of this one are in the queue.
    fn turn(
        &self,
        alloc: Global,
        queue: &mut Queue,
        above: &[usize],
        steps: usize,
    ) -> Result<Option<Answer>, AllocError>
        requires { queue.old.index < vec_len queue.old.tails }
        ensures turns { IfOk result
            (Turns (seen_search self.now.search.now) (seen_links self.now.links) steps above.now
            queue.old queue.new) }
        ensures kept { IfErr result
            (λ e. StaysAt (seen_search self.now.search.now) (seen_links self.now.links) above.now
            queue.old queue.new) }
        ensures onward { IfOk result (λ answer. IsOnward answer queue.old queue.new) }
        ensures bounded { IfOk result (λ answer. IsBounded steps queue.old queue.new) }
    {
        if !self.grow(alloc, queue, above, steps)? {
            return Ok(Some(Answer::GaveUp));
        }
        queue.index += 1;
        queue.number = 0;
        queue.tried = 0;
        Ok(None)
    }

    /// Hands out the next anchor above the next tail, or goes on to the tail behind it.
    fn step(
        &self,
        alloc: Global,
        queue: &mut Queue,
        steps: usize,
    ) -> Result<Option<Answer>, AllocError>
        requires { queue.old.index < vec_len queue.old.tails }
        ensures steps { IfOk result
            (Steps (seen_search self.now.search.now) (seen_links self.now.links) steps queue.old
            queue.new) }
        ensures kept { IfErr result
            (λ e. Stays (seen_search self.now.search.now) (seen_links self.now.links) queue.old
            queue.new) }
        ensures onward { IfOk result (λ answer. IsOnward answer queue.old queue.new) }
        ensures bounded { IfOk result (λ answer. IsBounded steps queue.old queue.new) }
    {
        let above = Vec::from_slice(alloc, &queue.tails[queue.index])?;
        match self.anchor(&above, queue.number) {
            None => self.turn(alloc, queue, &above, steps),
            Some(anchor) => {
                queue.number += 1;
                Ok(Some(Answer::Found(Candidate { anchor, above })))
            }
        }
    }

    /// The next answer.
    pub(crate) fn next(
        &self,
        alloc: Global,
        queue: &mut Queue,
        steps: usize,
    ) -> Result<Answer, AllocError>
        ensures answers { IfOk result
            (Answers (seen_search self.now.search.now) (seen_links self.now.links) steps queue.old
            queue.new) }
        ensures kept { IfErr result
            (λ e. Stays (seen_search self.now.search.now) (seen_links self.now.links) queue.old
            queue.new) }
    {
        while queue.index < queue.tails.len() {
            if let Some(answer) = self.step(alloc, queue, steps)? {
                return Ok(answer);
            }
        }
        Ok(Answer::NotFound)
    }
}
