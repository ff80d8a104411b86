//! The comparison of two relying parties.

ghost use Rattle.std.specs.Prelude.{◌≡◌, ◌≢◌, ◌↔◌, [], IsTrue, IfErr, IfOk, length, map, option_map};
ghost use Rattle.sqlite.specs.State.{HasCleanDisk};
ghost use Rattle.statements_facts.specs.Answer.{seen_crl, seen_ocsp};
ghost use Rattle.store_sql.specs.Inside.{IsInTransaction, KeepsReference, inside};
ghost use Rattle.store_sql.specs.Statements.{CommitsNothing};
ghost use Rattle.relying_agreement.specs.Comparison.{IsComparison};
ghost use Rattle.relying_verdicts.specs.Asking.{AreAskedOpen, AsksStores, AsksBothForCause, BothAreInvalidOrOpen, IsFaultOfValidPath};
ghost use Rattle.relying_verdicts.specs.Difference.{ComparesEvidence, IsFirstApart};
ghost use Rattle.relying_verdicts.specs.Found.{ComparesHeld};
ghost use Rattle.relying_search.specs.View.{seen_evidence, seen_lists};
ghost use Rattle.path.specs.Reading.{seen_query};

use crate::evidence::verdict_by;
use crate::fault::Fault;
use crate::looking::evidence_on;
use path::{Outcome, Query, Verifier};
use relying_agreement::{Comparison, Verdict};
use relying_search::Evidence;
use sqlite::{Alter, Transaction};
use statements_facts::{CrlAnswer, OcspAnswer};
use std::alloc::Global;

/// Whether two lists have the same number, window and entry.
fn same_list(one: &CrlAnswer, other: &CrlAnswer) -> bool
    ensures { IsTrue result ↔ (seen_crl one.now ≡ seen_crl other.now) }
{
    one.number == other.number
        && (one.from == other.from && (one.until == other.until && one.reason == other.reason))
}

/// Whether nothing is held twice, or two lists of which the same is said.
fn same_in_slot(one: Option<CrlAnswer>, other: Option<CrlAnswer>) -> bool
    ensures { IsTrue result ↔ (option_map seen_crl one ≡ option_map seen_crl other) }
{
    match (one, other) {
        (None, None) => true,
        (Some(one), Some(other)) => same_list(&one, &other),
        _ => false,
    }
}

/// Whether the same is said slot by slot.
fn same_lists(one: &[Option<CrlAnswer>], other: &[Option<CrlAnswer>]) -> bool
    ensures { IsTrue result ↔ (seen_lists one.now ≡ seen_lists other.now) }
{
    if one.len() != other.len() {
        return false;
    }
    for (index, crl) in one.iter().enumerate() {
        if !same_in_slot(*crl, other[index]) {
            return false;
        }
    }
    true
}

/// Whether two responses have the same times, window and status.
fn same_said(one: &OcspAnswer, other: &OcspAnswer) -> bool
    ensures { IsTrue result ↔ (seen_ocsp one.now ≡ seen_ocsp other.now) }
{
    (one.this_update == other.this_update && one.produced_at == other.produced_at)
        && ((one.from == other.from && one.until == other.until) && one.status == other.status)
}

/// Whether nothing is held twice, or two responses that say the same.
fn same_responses(one: Option<OcspAnswer>, other: Option<OcspAnswer>) -> bool
    ensures { IsTrue result
        ↔ (option_map seen_ocsp one ≡ option_map seen_ocsp other) }
{
    match (one, other) {
        (None, None) => true,
        (Some(one), Some(other)) => same_said(&one, &other),
        _ => false,
    }
}

/// Whether all that bears on a certificate is the same.
fn same_evidence(one: &Evidence, other: &Evidence) -> bool
    ensures { IsTrue result ↔ (seen_evidence one.now ≡ seen_evidence other.now) }
{
    (one.number == other.number && one.may_sign_crls == other.may_sign_crls)
        && (same_lists(&one.lists, &other.lists)
            && (same_lists(&one.limited, &other.limited) && same_responses(one.ocsp, other.ocsp)))
}

/// The first certificate on which something different bears.
fn first_apart(one: &[Evidence], other: &[Evidence]) -> Option<usize>
    requires { length one.now ≡ length other.now }
    ensures { IsFirstApart (map seen_evidence one.now) (map seen_evidence other.now) result }
{
    for (index, it) in one.iter().enumerate() {
        if !same_evidence(it, &other[index]) {
            return Some(it.number);
        }
    }
    None
}

/// Whether both verdicts are the same.
fn same_verdicts(one: Verdict, other: Verdict) -> bool
    ensures { IsTrue result ↔ (one ≡ other) }
{
    one == other
}

/// The comparison of the verdicts on a path that meets all conditions.
fn compare_evidence(one: &[Evidence], other: &[Evidence], moment: i64) -> Comparison
    requires { length one.now ≡ length other.now }
    ensures { ComparesEvidence moment
        (map seen_evidence one.now) (map seen_evidence other.now) result }
{
    let verdict = verdict_by(one, moment);
    let Some(number) = first_apart(one, other) else {
        return Comparison::Same(verdict);
    };
    let others = verdict_by(other, moment);
    if same_verdicts(verdict, others) {
        Comparison::Same(verdict)
    } else {
        Comparison::Differ(verdict, others, number)
    }
}

/// The same at the moment that is asked for.
fn compare_at(query: &Query<'_>, one: &[Evidence], other: &[Evidence]) -> Comparison
    requires { length one.now ≡ length other.now }
    ensures { ComparesEvidence (seen_query query.now).moment
        (map seen_evidence one.now) (map seen_evidence other.now) result }
{
    let moment = query.moment;
    compare_evidence(one, other, moment)
}

/// The comparison of the verdicts on a path that meets all conditions, by what two stores hold.
fn compare_held<S: Alter, D: Alter>(
    alloc: Global,
    one: &mut Transaction<'_, S>,
    other: &mut Transaction<'_, D>,
    query: &Query<'_>,
) -> Result<Comparison, Fault>
    requires inside { IsInTransaction S.Store one.old }
    requires other_inside { IsInTransaction D.Store other.old }
    ensures same_reference { KeepsReference one.old one.new }
    ensures other_reference { KeepsReference other.old other.new }
    ensures asks { AsksStores S.Store one.old one.new D.Store other.old other.new
        (ComparesHeld (seen_query query.now)) result }
    ensures caused { AsksBothForCause S.Store one.old one.new D.Store other.old other.new result }
    ensures open { HasCleanDisk (inside S.Store one.new) → HasCleanDisk (inside D.Store other.new)
        → query.now.path.items ≢ []
        → IfOk result (AreAskedOpen (inside S.Store one.old).is_open
        (inside D.Store other.old).is_open) }
    ensures survives { CommitsNothing (inside S.Store one.old) (inside S.Store one.new) }
    ensures other_survives { CommitsNothing (inside D.Store other.old) (inside D.Store other.new) }
{
    let held = evidence_on(alloc, one, query)?;
    let others = evidence_on(alloc, other, query)?;
    Ok(compare_at(query, held.as_slice(), others.as_slice()))
}

/// Compares the verdicts on a path by what two stores hold, under one relation of signatures. The path is validated first; the stores are
/// asked only if it meets the conditions.
pub fn compare<V: Verifier, S: Alter, D: Alter>(
    alloc: Global,
    verifier: &V,
    one: &mut Transaction<'_, S>,
    other: &mut Transaction<'_, D>,
    query: &Query<'_>,
) -> Result<Comparison, Fault>
    requires inside { IsInTransaction S.Store one.old }
    requires other_inside { IsInTransaction D.Store other.old }
    ensures same_reference { KeepsReference one.old one.new }
    ensures other_reference { KeepsReference other.old other.new }
    ensures asks { AsksStores S.Store one.old one.new D.Store other.old other.new
        (IsComparison (V.accepts verifier.now) (seen_query query.now)) result }
    ensures caused { AsksBothForCause S.Store one.old one.new D.Store other.old other.new result }
    ensures open { BothAreInvalidOrOpen S.Store one.old one.new D.Store other.old other.new
        (V.accepts verifier.now) (seen_query query.now) result }
    ensures valid { IfErr result
        (IsFaultOfValidPath (V.accepts verifier.now) (seen_query query.now)) }
    ensures survives { CommitsNothing (inside S.Store one.old) (inside S.Store one.new) }
    ensures other_survives { CommitsNothing (inside D.Store other.old) (inside D.Store other.new) }
{
    let outcome = query.validate(alloc, verifier)?;
    match outcome {
        Outcome::Bad(number, reason) => Ok(Comparison::Same(Verdict::Invalid(number, reason))),
        Outcome::Good => compare_held(alloc, one, other, query),
    }
}
