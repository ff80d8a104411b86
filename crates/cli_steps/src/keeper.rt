//! Who keeps statements.
ghost use Rattle.std.specs.Prelude.{◌≡◌, false, IfOk, OnOk};
ghost use Rattle.statements_facts.specs.Fact.{facts_in};
ghost use Rattle.path.specs.Reading.{seen_query};
ghost use Rattle.path_issuers.specs.View.{seen_search};
ghost use Rattle.cli_steps.specs.Keeping.{AnswersWithFinding, AnswersWithListing, AnswersWithVerdict, IsInvalidOrFrom, IsNotFoundOrFrom, Keeps, Takes};

use cli_failures::Failure;
use path::{Query, Verifier};
use path_search::Search;
use relying_agreement::Verdict;
use relying_search::{Finding, FindingBudget};
use statements_facts::{Counts, Facts};
use std::alloc::Global;
use store_listing::Listing;

/// Who keeps the newest statement of each slot, and tells verdicts by them: a store, or what stands for one in a test.
///
/// What a keeper keeps is its own matter. All that is known is what a call makes of what it kept, as long as its disk returns what was
/// written to it: a call fails then only because memory ran out, or with the fault 71 of a store. Nothing is asked of its connection: an
/// answer is that of an open one, or it is no answer.
pub trait Keeper {
    ghost use Rattle.cli_steps.specs.Keeping.{Kept};

    /// Whether it keeps this.
    ghost keeps: { Self → Kept → Type 0 };

    /// Whether its disk has returned so far what was written to it.
    ghost is_clean: { Self → Type 0 };

    /// Whether its connection is open.
    ghost is_open: { Self → Type 0 };

    /// Takes what a genuine statement says, whole or not at all: of each slot the newest is held then. It is counted by an open connection
    /// alone.
    fn take<'a>(&mut self, facts: &Facts<'_>) -> Result<Counts, Failure<'a>>
        ensures clean { is_clean self.new → is_clean self.old }
        ensures open { is_clean self.new → OnOk result (is_open self.new) }
        ensures takes { is_clean self.new
            → Takes (keeps self.old) (keeps self.new) (facts_in facts.now) result };

    /// The verdict on a path by what is held. That it is invalid is said of the path alone; any other verdict comes from an open connection.
    fn verdict<'a, V: Verifier>(
        &mut self,
        alloc: Global,
        verifier: &V,
        query: &Query<'_>,
    ) -> Result<Verdict, Failure<'a>>
        ensures clean { is_clean self.new → is_clean self.old }
        ensures open { is_clean self.new → IfOk result (IsInvalidOrFrom (is_open self.old)) }
        ensures finds { is_clean self.new → AnswersWithVerdict (keeps self.old) (keeps self.new)
            (V.accepts verifier.now) (seen_query query.now) result };

    /// What is found to a certificate by what is held. A path with its verdict comes from an open connection.
    fn find<'a, V: Verifier>(
        &mut self,
        alloc: Global,
        verifier: &V,
        search: &Search<'_, '_>,
        budget: FindingBudget,
    ) -> Result<Finding, Failure<'a>>
        ensures clean { is_clean self.new → is_clean self.old }
        ensures open { is_clean self.new → IfOk result (IsNotFoundOrFrom (is_open self.old)) }
        ensures finds { is_clean self.new → AnswersWithFinding (keeps self.old) (keeps self.new)
            (V.accepts verifier.now) (seen_search search.now) budget result };

    /// What it holds, listed. A listing comes from an open connection.
    fn list<'a>(&mut self, alloc: Global) -> Result<Listing, Failure<'a>>
        ensures clean { is_clean self.new → is_clean self.old }
        ensures open { is_clean self.new → OnOk result (is_open self.old) }
        ensures lists { is_clean self.new
            → AnswersWithListing (keeps self.old) (keeps self.new) result };

    /// Whether it may still answer. It does not once its connection is shut.
    fn may_answer(&mut self) -> bool
        ensures clean { is_clean self.new → is_clean self.old }
        ensures keeps { is_clean self.new → Keeps (keeps self.old) (keeps self.new) }
        ensures shut { result ≡ false → is_clean self.new → is_open self.new → ⊥ };
}
