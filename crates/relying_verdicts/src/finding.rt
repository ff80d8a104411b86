//! The verdict on a certificate under the paths that lead to it.

ghost use Rattle.std.specs.Prelude.{◌≡◌, IfErr, IfOk, map};
ghost use Rattle.sqlite.specs.State.{HasCleanDisk};
ghost use Rattle.path_search.specs.Answer.{seen_candidate};
ghost use Rattle.path_issuers.specs.View.{seen_search};
ghost use Rattle.path_issuers.specs.Search.{query_about};
ghost use Rattle.store_sql.specs.Inside.{IsInTransaction, KeepsReference, SucceedsOnlyIfOpen, inside};
ghost use Rattle.store_sql.specs.Statements.{CommitsNothing};
ghost use Rattle.relying_agreement.specs.Verdict.{evidence_on, verdict_by};
ghost use Rattle.path.specs.Query.{Accepts};
ghost use Rattle.relying_search.specs.View.{seen_evidence};
ghost use Rattle.relying_search.specs.Asked.{Steps};
ghost use Rattle.relying_search.specs.Finding.{FindsHolding, seen_finding};
ghost use Rattle.relying_verdicts.specs.Asking.{AsksForCause, AsksStore};
ghost use Rattle.relying_verdicts.specs.Looking.{IsAskedOnlyIfOpen, IsFaultOfNextCandidate, IsFaultOfValidCandidate, IsFoundOnlyIfOpen, Walks};

use crate::evidence::verdict_by;
use crate::fault::Fault;
use crate::looking::evidence_of_each;
use path_search::{Answer, Candidate, Paths, Search, search_laws};
use path_verifiers::Verifier;
use relying_agreement::Verdict;
use relying_search::{Asked, Evidence, Finding, FindingBudget, links_of_candidate};
use sqlite::{Alter, Transaction};
use std::alloc::Global;

/// The verdict on a path that meets all conditions, at the moment that is asked for.
fn verdict_at(search: &Search<'_, '_>, evidence: &[Evidence]) -> Verdict
    ensures { result ≡ verdict_by (seen_search search.now).moment (map seen_evidence evidence.now) }
{
    let moment = search.moment;
    verdict_by(evidence, moment)
}

/// The verdict on the path of a candidate that meets all conditions.
fn verdict_on_candidate<S: Alter>(
    alloc: Global,
    tx: &mut Transaction<'_, S>,
    search: &Search<'_, '_>,
    candidate: &Candidate,
) -> Result<Verdict, Fault>
    requires inside { IsInTransaction S.Store tx.old }
    ensures same_reference { KeepsReference tx.old tx.new }
    ensures asks { AsksStore S.Store tx.old tx.new (λ held verdict.
        verdict ≡ verdict_by (seen_search search.now).moment
        (evidence_on held (query_about (seen_search search.now) (seen_candidate candidate.now))))
        result }
    ensures caused { AsksForCause S.Store tx.old tx.new result }
    ensures open { SucceedsOnlyIfOpen S.Store tx.old tx.new result }
    ensures survives { CommitsNothing (inside S.Store tx.old) (inside S.Store tx.new) }
{
    let links = links_of_candidate(alloc, search, candidate)?;
    let evidence = evidence_of_each(alloc, tx, links.as_slice())?;
    Ok(verdict_at(search, evidence.as_slice()))
}

/// Asks about the next valid path. Answers what is found, if that ends the search.
fn ask_next<S: Alter>(
    alloc: Global,
    tx: &mut Transaction<'_, S>,
    search: &Search<'_, '_>,
    paths: &mut Paths<'_, '_, '_>,
    asked: &mut Asked,
) -> Result<Option<Finding>, Fault>
    requires inside { IsInTransaction S.Store tx.old }
    ensures same_reference { KeepsReference tx.old tx.new }
    ensures asks { AsksStore S.Store tx.old tx.new (λ held answer. (accepts : Accepts)
        → Steps accepts (λ query. held) (seen_search search.now) paths.old asked.old
        paths.new asked.new answer) result }
    ensures caused { AsksForCause S.Store tx.old tx.new result }
    ensures open { HasCleanDisk (inside S.Store tx.new)
        → IfOk result (IsAskedOnlyIfOpen (inside S.Store tx.old).is_open asked.old) }
    ensures walks { IfOk result
        (Walks (seen_search search.now) paths.old asked.old paths.new asked.new) }
    ensures valid { IfErr result (IsFaultOfNextCandidate (seen_search search.now) paths.old) }
    ensures survives { CommitsNothing (inside S.Store tx.old) (inside S.Store tx.new) }
{
    match paths.next(alloc)? {
        Answer::Found(path) => {
            let verdict = verdict_on_candidate(alloc, tx, search, &path)?;
            Ok(asked.note(path, verdict))
        }
        Answer::NotFound => Ok(Some(asked.end())),
        Answer::GaveUp => Ok(Some(Finding::GaveUp)),
    }
}

/// Searches for a path to the target, and asks for the verdict on each valid one by what the store holds, until one is `Valid`. The store
/// is asked about valid paths alone.
pub fn find<V: Verifier, S: Alter>(
    alloc: Global,
    verifier: &V,
    tx: &mut Transaction<'_, S>,
    search: &Search<'_, '_>,
    budget: FindingBudget,
) -> Result<Finding, Fault>
    requires inside { IsInTransaction S.Store tx.old }
    ensures same_reference { KeepsReference tx.old tx.new }
    ensures asks { AsksStore S.Store tx.old tx.new
        (FindsHolding (V.accepts verifier.now) (seen_search search.now) budget) result }
    ensures caused { AsksForCause S.Store tx.old tx.new result }
    ensures open { HasCleanDisk (inside S.Store tx.new) → IfOk result (λ finding.
        IsFoundOnlyIfOpen (V.accepts verifier.now) (seen_search search.now) budget
        (inside S.Store tx.old).is_open (seen_finding finding)) }
    ensures valid { IfErr result
        (IsFaultOfValidCandidate (V.accepts verifier.now) (seen_search search.now)) }
    ensures survives { CommitsNothing (inside S.Store tx.old) (inside S.Store tx.new) }
{
    search_laws();
    let mut paths = Paths::new(alloc, verifier, search, budget.search)?;
    let mut asked = Asked::none();
    for _ in 0..budget.verdicts {
        let answer = ask_next(alloc, tx, search, &mut paths, &mut asked)?;
        if let Some(finding) = answer {
            return Ok(finding);
        }
    }
    Ok(asked.end_behind(alloc, &mut paths)?)
}
