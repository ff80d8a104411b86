//! The verdict on a path.

ghost use Rattle.std.specs.Prelude.{◌≡◌, IfErr, IfOk, IsTrue, map};
ghost use Rattle.store_sql.specs.Inside.{IsInTransaction, KeepsReference, inside};
ghost use Rattle.store_sql.specs.Statements.{CommitsNothing};
ghost use Rattle.sqlite.specs.State.{HasCleanDisk};
ghost use Rattle.relying_agreement.specs.Verdict.{IsVerdict, verdict_by};
ghost use Rattle.relying_verdicts.specs.Asking.{AsksStore, AsksForCause, IsFaultOfValidPath, IsInvalidOrOpen};
ghost use Rattle.relying_search.specs.View.{seen_evidence};
ghost use Rattle.path.specs.Reading.{seen_query};

use crate::evidence::verdict_by;
use crate::fault::Fault;
use crate::looking::evidence_on;
use path::{Outcome, Query, Verifier};
use relying_agreement::Verdict;
use relying_search::Evidence;
use sqlite::{Alter, Transaction};
use std::alloc::Global;

/// What is said of a path that meets all conditions.
fn verdict_at(query: &Query<'_>, evidence: &[Evidence]) -> Verdict
    ensures { result ≡ verdict_by (seen_query query.now).moment (map seen_evidence evidence.now) }
{
    let moment = query.moment;
    verdict_by(evidence, moment)
}

/// The verdict on a path by what the store holds. The path is validated first; the store is asked only if the path meets the conditions:
/// for the lists of both scopes and the response that speak of each certificate, once each.
pub fn verdict<V: Verifier, S: Alter>(
    alloc: Global,
    verifier: &V,
    tx: &mut Transaction<'_, S>,
    query: &Query<'_>,
) -> Result<Verdict, Fault>
    requires inside { IsInTransaction S.Store tx.old }
    ensures same_reference { KeepsReference tx.old tx.new }
    ensures asks { AsksStore S.Store tx.old tx.new
        (IsVerdict (V.accepts verifier.now) (seen_query query.now)) result }
    ensures caused { AsksForCause S.Store tx.old tx.new result }
    ensures open { HasCleanDisk (inside S.Store tx.new)
        → IfOk result (IsInvalidOrOpen (V.accepts verifier.now) (seen_query query.now)
        (inside S.Store tx.old).is_open) }
    ensures valid { IfErr result
        (IsFaultOfValidPath (V.accepts verifier.now) (seen_query query.now)) }
    ensures survives { CommitsNothing (inside S.Store tx.old) (inside S.Store tx.new) }
{
    let outcome = query.validate(alloc, verifier)?;
    match outcome {
        Outcome::Bad(number, reason) => Ok(Verdict::Invalid(number, reason)),
        Outcome::Good => {
            let evidence = evidence_on(alloc, tx, query)?;
            Ok(verdict_at(query, evidence.as_slice()))
        }
    }
}
