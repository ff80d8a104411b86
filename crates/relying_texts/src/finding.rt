//! The verdict on a certificate under the paths that lead to it, by statements at hand.

ghost use Rattle.std.specs.Prelude.{◌≡◌, IfOk, map};
ghost use Rattle.path_search.specs.Answer.{seen_candidate};
ghost use Rattle.path_issuers.specs.View.{seen_search};
ghost use Rattle.path_issuers.specs.Search.{IsValidCandidate};
ghost use Rattle.statements.specs.Statement.{seen_statement};
ghost use Rattle.relying_agreement.specs.Status.{evidence_of};
ghost use Rattle.relying_agreement.specs.Verdict.{verdict_by};
ghost use Rattle.relying_search.specs.View.{seen_link};
ghost use Rattle.relying_search.specs.Asked.{Steps};
ghost use Rattle.relying_search.specs.Finding.{HasVerdict, IsFinding, seen_finding};
ghost use Rattle.relying_texts.specs.Texts.{held_for};
ghost use Rattle.relying_texts.specs.View.{facts_in_all, held_of};

use crate::contents::GenuineStatement;
use crate::gathering::genuine_statements;
use crate::verdicts::verdict_on;
use path_search::{Answer, Candidate, Paths, Search};
use path_verifiers::Verifier;
use relying_agreement::Verdict;
use relying_search::{Asked, Finding, FindingBudget, Link, links_of_candidate};
use statements::Statement;
use std::alloc::{AllocError, Global};

/// The verdict on a path that meets all conditions, at the moment that is asked for.
fn verdict_at(
    alloc: Global,
    search: &Search<'_, '_>,
    links: &[Link<'_, '_>],
    genuine: &[GenuineStatement<'_, '_, '_>],
) -> Result<Verdict, AllocError>
    ensures { IfOk result (λ verdict. verdict ≡ verdict_by search.now.moment
        (map (evidence_of (held_of (facts_in_all genuine.now))) (map seen_link links.now))) }
{
    let moment = search.moment;
    verdict_on(alloc, links, genuine, moment)
}

/// The verdict on the path of a valid candidate, as `verdict` answers it. The path is not validated once more. The only error is lack of
/// memory.
pub fn verdict_on_candidate<V: Verifier>(
    alloc: Global,
    verifier: &V,
    search: &Search<'_, '_>,
    candidate: &Candidate,
    statements: &[Statement<'_>],
) -> Result<Verdict, AllocError>
    ensures { IfOk result (λ verdict.
        IsValidCandidate (V.accepts verifier.now) (seen_search search.now)
        (seen_candidate candidate.now)
        → HasVerdict (V.accepts verifier.now)
        (held_for (V.accepts verifier.now) (map seen_statement statements.now))
        (seen_search search.now) (seen_candidate candidate.now) verdict) }
{
    let links = links_of_candidate(alloc, search, candidate)?;
    let genuine = genuine_statements(alloc, verifier, links.as_slice(), statements)?;
    verdict_at(alloc, search, links.as_slice(), genuine.as_slice())
}

/// Asks about the next valid path. Answers what is found, if that ends the search.
fn ask_next<V: Verifier>(
    alloc: Global,
    verifier: &V,
    search: &Search<'_, '_>,
    statements: &[Statement<'_>],
    paths: &mut Paths<'_, '_, '_>,
    asked: &mut Asked,
) -> Result<Option<Finding>, AllocError>
    ensures { IfOk result (Steps (V.accepts verifier.now)
        (held_for (V.accepts verifier.now) (map seen_statement statements.now))
        (seen_search search.now) paths.old asked.old paths.new asked.new) }
{
    match paths.next(alloc)? {
        Answer::Found(path) => {
            let verdict = verdict_on_candidate(alloc, verifier, search, &path, statements)?;
            Ok(asked.note(path, verdict))
        }
        Answer::NotFound => Ok(Some(asked.end())),
        Answer::GaveUp => Ok(Some(Finding::GaveUp)),
    }
}

/// Searches for a path to the target, as `path_search::find` does, and asks for the verdict on each valid one, as `verdict` answers it,
/// until one is `Valid`: that path is found. If none is, the first valid path is found, with its verdict.
///
/// The verifier is asked who issued whom once a pair of certificates, and about the statements once for each path that is asked about.
/// The only error is lack of memory.
pub fn find<V: Verifier>(
    alloc: Global,
    verifier: &V,
    search: &Search<'_, '_>,
    statements: &[Statement<'_>],
    budget: FindingBudget,
) -> Result<Finding, AllocError>
    ensures { IfOk result (λ finding. IsFinding (V.accepts verifier.now)
        (held_for (V.accepts verifier.now) (map seen_statement statements.now))
        (seen_search search.now) budget (seen_finding finding)) }
{
    let mut paths = Paths::new(alloc, verifier, search, budget.search)?;
    let mut asked = Asked::none();
    for _ in 0..budget.verdicts {
        let answer = ask_next(alloc, verifier, search, statements, &mut paths, &mut asked)?;
        if let Some(finding) = answer {
            return Ok(finding);
        }
    }
    asked.end_behind(alloc, &mut paths)
}
