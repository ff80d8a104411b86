//! Receivers: what takes the facts of a delivery, and what answers a query or a search. That is a session's keeper, or a store that is opened when it
//! is called.
ghost use Rattle.statements_facts.specs.Fact.{facts_in};
ghost use Rattle.path.specs.Reading.{seen_query};
ghost use Rattle.path_issuers.specs.View.{seen_search};

use crate::keeper::Keeper;
use cli_failures::Failure;
use path::{Query, Verifier};
use path_search::Search;
use relying_agreement::Verdict;
use relying_search::{Finding, FindingBudget};
use statements_facts::{Counts, Facts};
use std::alloc::Global;

/// Takes the facts of a genuine statement. A failure names files or operands, which live as long as `'a`.
pub trait TakeFacts<'a> {
    ghost use Rattle.std.specs.Prelude.{List, Result};
    ghost use Rattle.statements_facts.specs.Fact.{Fact};
    ghost use Rattle.statements_facts.specs.declared.counts.Counts.{Counts};
    ghost use Rattle.cli_failures.specs.declared.failure.Failure.{Failure};

    /// Whether a call with these facts takes it from one state to the other, and returns this.
    ghost takes: { Self → Self → List Fact → Result Counts Failure → Type 0 };

    /// Takes them, and returns how they were counted.
    fn take_facts(&mut self, facts: &Facts<'_>) -> Result<Counts, Failure<'a>>
        ensures { takes self.old self.new (facts_in facts.now) result };
}

/// Answers a query about a path with a `T`. A failure names files or operands, which live as long as `'a`.
pub trait AnswerQuery<'a, T> {
    ghost use Rattle.std.specs.Prelude.{Result};
    ghost use Rattle.path.specs.Query.{Accepts, Query};
    ghost use Rattle.cli_failures.specs.declared.failure.Failure.{Failure};

    /// Whether a call with a verifier that accepts so and with this query takes it from one state to the other, and returns this.
    ghost answers: { Self → Self → Accepts → Query → Result T Failure → Type 0 };

    /// The answer, with this verifier.
    fn answer<V: Verifier>(
        &mut self,
        alloc: Global,
        verifier: &V,
        query: &Query<'_>,
    ) -> Result<T, Failure<'a>>
        ensures { answers self.old self.new (V.accepts verifier.now) (seen_query query.now)
            result };
}

/// Answers a search with what it found. A failure names files, which live as long as `'a`.
pub trait AnswerSearch<'a> {
    ghost use Rattle.std.specs.Prelude.{Result};
    ghost use Rattle.path.specs.Query.{Accepts};
    ghost use Rattle.path_issuers.specs.Search.{Search};
    ghost use Rattle.relying_search.specs.declared.finding.Finding.{Finding};
    ghost use Rattle.relying_search.specs.declared.finding.FindingBudget.{FindingBudget};
    ghost use Rattle.cli_failures.specs.declared.failure.Failure.{Failure};

    /// Whether a call with a verifier that accepts so, with this search and with this budget takes it from one state to the other, and
    /// returns this.
    ghost finds: { Self → Self → Accepts → Search → FindingBudget → Result Finding Failure → Type 0 };

    /// What is found, with this verifier.
    fn answer_search<V: Verifier>(
        &mut self,
        alloc: Global,
        verifier: &V,
        search: &Search<'_, '_>,
        budget: FindingBudget,
    ) -> Result<Finding, Failure<'a>>
        ensures { finds self.old self.new (V.accepts verifier.now) (seen_search search.now) budget
            result };
}

/// A keeper takes facts as its own clauses say, if its disk returned what was written.
impl<'a, K: Keeper> TakeFacts<'a> for K {
    ghost use Rattle.cli_steps.specs.Keeping.{TakesCleanly};

    ghost takes = { TakesCleanly K.is_clean K.keeps };

    fn take_facts(&mut self, facts: &Facts<'_>) -> Result<Counts, Failure<'a>> {
        self.take(facts)
    }
}

/// A keeper answers with a verdict as its own clauses say, if its disk returned what was written.
impl<'a, K: Keeper> AnswerQuery<'a, Verdict> for K {
    ghost use Rattle.cli_steps.specs.Keeping.{AnswersCleanly};

    ghost answers = { AnswersCleanly K.is_clean K.keeps };

    fn answer<V: Verifier>(
        &mut self,
        alloc: Global,
        verifier: &V,
        query: &Query<'_>,
    ) -> Result<Verdict, Failure<'a>> {
        self.verdict(alloc, verifier, query)
    }
}

/// A keeper answers a search as its own clauses say, if its disk returned what was written.
impl<'a, K: Keeper> AnswerSearch<'a> for K {
    ghost use Rattle.cli_steps.specs.Keeping.{FindsCleanly};

    ghost finds = { FindsCleanly K.is_clean K.keeps };

    fn answer_search<V: Verifier>(
        &mut self,
        alloc: Global,
        verifier: &V,
        search: &Search<'_, '_>,
        budget: FindingBudget,
    ) -> Result<Finding, Failure<'a>> {
        self.find(alloc, verifier, search, budget)
    }
}
