//! Searches among the paths that count, by statements at hand.

ghost use Rattle.std.specs.Prelude.{IfOk, map};
ghost use Rattle.path_search.specs.Answer.{seen_candidate};
ghost use Rattle.path_issuers.specs.View.{seen_search};
ghost use Rattle.statements.specs.Statement.{seen_statement};
ghost use Rattle.relying_policies.specs.ByStatements.{AsksByStatements, IsFindingAmongByStatements, StepsByStatements};

use path_search::{Answer, Candidate, Paths, Search, search_laws};
use path_verifiers::Verifier;
use relying_agreement::verdict_laws;
use relying_search::{AskedAmong, Finding, FindingBudget, PathFilter};
use relying_texts::verdict_on_candidate;
use statements::Statement;
use std::alloc::{AllocError, Global};

/// Asks whether a valid path counts, and if so for its verdict. Answers what is found, if that ends the search.
fn ask_about<V: Verifier, F: PathFilter>(
    alloc: Global,
    verifier: &V,
    filter: &F,
    search: &Search<'_, '_>,
    statements: &[Statement<'_>],
    path: Candidate,
    asked: &mut AskedAmong,
) -> Result<Option<Finding>, AllocError>
    ensures { IfOk result (AsksByStatements (F.counts filter.now) (V.accepts verifier.now)
        (map seen_statement statements.now) (seen_search search.now) asked.old asked.new
        (seen_candidate path)) }
{
    search_laws();
    verdict_laws();
    if !filter.passes(alloc, search, &path)? {
        return Ok(None);
    }
    let verdict = verdict_on_candidate(alloc, verifier, search, &path, statements)?;
    Ok(asked.note(path, verdict))
}

/// Asks about the next valid path. Answers what is found, if that ends the search.
fn ask_next<V: Verifier, F: PathFilter>(
    alloc: Global,
    verifier: &V,
    filter: &F,
    search: &Search<'_, '_>,
    statements: &[Statement<'_>],
    paths: &mut Paths<'_, '_, '_>,
    asked: &mut AskedAmong,
) -> Result<Option<Finding>, AllocError>
    ensures { IfOk result (StepsByStatements (F.counts filter.now) (V.accepts verifier.now)
        (map seen_statement statements.now) (seen_search search.now) paths.old asked.old
        paths.new asked.new) }
{
    search_laws();
    verdict_laws();
    match paths.next(alloc)? {
        Answer::Found(path) => ask_about(alloc, verifier, filter, search, statements, path, asked),
        Answer::NotFound => Ok(Some(asked.end())),
        Answer::GaveUp => Ok(Some(Finding::GaveUp)),
    }
}

/// Searches for a path to the target, as `relying_texts::find` does, but passes over the valid paths that do not count: the first path that
/// counts and has the verdict `Valid` is found; if there is none, the first that counts, with its verdict. The budget's count of verdicts
/// is that of the valid paths that are asked about, also those that are passed over.
///
/// The filter is asked once about each of these paths, and the verifier as by `relying_texts::find`, but about the statements only for a path
/// that counts. The only error is lack of memory.
pub fn find_among<V: Verifier, F: PathFilter>(
    alloc: Global,
    verifier: &V,
    filter: &F,
    search: &Search<'_, '_>,
    statements: &[Statement<'_>],
    budget: FindingBudget,
) -> Result<Finding, AllocError>
    ensures { IfOk result (IsFindingAmongByStatements (F.counts filter.now) (V.accepts verifier.now)
        (map seen_statement statements.now) (seen_search search.now) budget) }
{
    search_laws();
    verdict_laws();
    let mut paths = Paths::new(alloc, verifier, search, budget.search)?;
    let mut asked = AskedAmong::none();
    for _ in 0..budget.verdicts {
        let answer = ask_next(
            alloc, verifier, filter, search, statements, &mut paths, &mut asked,
        )?;
        if let Some(finding) = answer {
            return Ok(finding);
        }
    }
    asked.end_behind(alloc, &mut paths)
}
