//! Which places a walk over a graph has seen, and from which of them it has still to go on.

ghost use Rattle.std.specs.Prelude.{◌≡◌, ◌+◌, ◌<◌, IfOk, OnOk, MatchOption, ℕ, vec_len};
ghost use Rattle.path_issuers.specs.Frontier.{Grows, GrowsBy, IsDone, IsSeen, Takes, Waits, left_of};

use std::alloc::{AllocError, Global};

/// Each place is seen once, and waits once until the walk goes on from it.
#[derive(Drop)]
pub(crate) struct Frontier {
    seen: Vec<bool>,
    waiting: Vec<usize>,
}

impl Frontier {
    /// None of the places is seen.
    pub(crate) fn new(alloc: Global, count: usize) -> Result<Frontier, AllocError>
        ensures count { IfOk result (λ frontier. vec_len frontier.seen ≡ count) }
        ensures left { IfOk result (λ frontier. left_of frontier ≡ count) }
        ensures none { IfOk result (λ frontier. (place : ℕ) → ¬ IsSeen frontier place) }
        ensures idle { IfOk result (λ frontier. (place : ℕ) → ¬ Waits frontier place) }
    {
        Ok(Frontier {
            seen: vec![in alloc; false; count]?,
            waiting: Vec::new(alloc),
        })
    }

    /// Sees a place; one that is not among those of the walk is left out.
    pub(crate) fn see(&mut self, place: usize) -> Result<(), AllocError>
        ensures grows { OnOk result (Grows self.old self.new) }
        ensures seen { OnOk result (place < vec_len self.old.seen → IsSeen self.new place) }
        ensures only { OnOk result (GrowsBy (λ other. place ≡ other) self.old self.new) }
    {
        match self.seen.get_mut(place) {
            Some(seen) if !*seen => {
                *seen = true;
                self.waiting.push(place)?;
                Ok(())
            }
            _ => Ok(()),
        }
    }

    /// A place to go on from.
    pub(crate) fn next(&mut self) -> Option<usize>
        ensures { MatchOption result (IsDone self.old self.new)
            (λ place. Takes self.old self.new place) }
    {
        self.waiting.pop()
    }

    /// The places that were seen.
    pub(crate) fn into_seen(self) -> Vec<bool>
        ensures { result ≡ self.seen }
    {
        self.seen
    }
}
