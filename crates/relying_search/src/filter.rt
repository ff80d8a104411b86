//! Filters of paths.

ghost use Rattle.std.specs.Prelude.{IfOk};
ghost use Rattle.path_issuers.specs.View.{seen_search};
ghost use Rattle.path_search.specs.Answer.{seen_candidate};
ghost use Rattle.relying_search.specs.Filter.{TellsWhether};

use path_search::{Candidate, Search};
use std::alloc::{AllocError, Global};

/// A condition on paths beyond those of a valid path, as that the policies of a path are acceptable.
pub trait PathFilter {
    ghost use Rattle.path.specs.Query.{Accepts};
    ghost use Rattle.path_issuers.specs.Search.{Search, Candidate};

    /// Whether the path of a valid candidate meets the condition, for who accepts signatures so.
    ghost counts: { Self → Accepts → Search → Candidate → Type 0 };

    /// Whether the path of a valid candidate meets the condition. The only error is lack of memory.
    fn passes(
        &self,
        alloc: Global,
        search: &Search<'_, '_>,
        candidate: &Candidate,
    ) -> Result<bool, AllocError>
        ensures { IfOk result (TellsWhether (counts self.now) (seen_search search.now)
            (seen_candidate candidate.now)) };
}

/// Each valid path counts.
pub struct EachPath;

impl PathFilter for EachPath {
    ghost use Rattle.relying_search.specs.Among.{EachCounts};

    ghost counts = { λ it accepts s. EachCounts };

    fn passes(
        &self,
        _alloc: Global,
        _search: &Search<'_, '_>,
        _candidate: &Candidate,
    ) -> Result<bool, AllocError> {
        Ok(true)
    }
}
