//! Comparisons, in two transactions that are dropped.

ghost use Rattle.std.specs.Prelude.{◌≡◌, false, IfErr};
ghost use Rattle.sqlite.specs.Held.{state};
ghost use Rattle.sqlite.specs.Files.{file_state};
ghost use Rattle.store_sql.specs.Statements.{IsDurable, CommitsNothing};
ghost use Rattle.relying_agreement.specs.Comparison.{IsComparison};
ghost use Rattle.relying.specs.Asking.{AreSettled, BothAnswerOnlyIfOpen, LooksAtBoth, LooksAtBothForCause, LooksInsideBoth};
ghost use Rattle.relying.specs.Never.{NeverDifferIfClean};
ghost use Rattle.relying_verdicts.specs.Asking.{IsFaultOfValidPath};
ghost use Rattle.relying.specs.View.{stored};
ghost use Rattle.path.specs.Reading.{seen_query};

use crate::node::Node;
use path_verifiers::Verifier;
use relying_agreement::comparison_laws;
use relying_verdicts::{Comparison, Fault, Query};
use sqlite::{Alter, Connection, FileStore};
use sqlite_disk::Disk;
use std::alloc::Global;

fn compare_in_transactions<V: Verifier, S: Alter, D: Alter>(
    alloc: Global,
    verifier: &V,
    one: &mut Connection<S>,
    other: &mut Connection<D>,
    query: &Query<'_>,
) -> Result<Comparison, Fault>
    requires idle { one.old.in_transaction ≡ false }
    requires other_idle { other.old.in_transaction ≡ false }
    ensures idle { one.new.in_transaction ≡ false }
    ensures other_idle { other.new.in_transaction ≡ false }
    ensures looks { LooksInsideBoth (state S.Store one.old) (state S.Store one.new)
        (state D.Store other.old) (state D.Store other.new)
        (IsComparison (V.accepts verifier.now) (seen_query query.now)) result }
    ensures caused { LooksAtBothForCause (state S.Store one.old) (state S.Store one.new)
        (state D.Store other.old) (state D.Store other.new) result }
    ensures open { BothAnswerOnlyIfOpen (V.accepts verifier.now) (seen_query query.now)
        (state S.Store one.old) (state S.Store one.new)
        (state D.Store other.old) (state D.Store other.new) result }
    ensures valid { IfErr result
        (IsFaultOfValidPath (V.accepts verifier.now) (seen_query query.now)) }
    ensures survives { CommitsNothing (state S.Store one.old) (state S.Store one.new) }
    ensures other_survives { CommitsNothing (state D.Store other.old) (state D.Store other.new) }
{
    let mut first = one.transaction();
    let mut second = other.transaction();
    relying_verdicts::compare(alloc, verifier, &mut first, &mut second, query)
}

/// The comparison of the verdicts on a path by what two stores hold.
fn compare_stores<V: Verifier, S: Alter, D: Alter>(
    alloc: Global,
    verifier: &V,
    one: &mut Connection<S>,
    other: &mut Connection<D>,
    query: &Query<'_>,
) -> Result<Comparison, Fault>
    requires idle { one.old.in_transaction ≡ false }
    requires other_idle { other.old.in_transaction ≡ false }
    ensures idle { one.new.in_transaction ≡ false }
    ensures other_idle { other.new.in_transaction ≡ false }
    ensures looks { LooksAtBoth (state S.Store one.old) (state S.Store one.new)
        (state D.Store other.old) (state D.Store other.new)
        (IsComparison (V.accepts verifier.now) (seen_query query.now)) result }
    ensures caused { LooksAtBothForCause (state S.Store one.old) (state S.Store one.new)
        (state D.Store other.old) (state D.Store other.new) result }
    ensures open { BothAnswerOnlyIfOpen (V.accepts verifier.now) (seen_query query.now)
        (state S.Store one.old) (state S.Store one.new)
        (state D.Store other.old) (state D.Store other.new) result }
    ensures valid { IfErr result
        (IsFaultOfValidPath (V.accepts verifier.now) (seen_query query.now)) }
    ensures settled { AreSettled (state S.Store one.old) (state S.Store one.new) }
    ensures other_settled { AreSettled (state D.Store other.old) (state D.Store other.new) }
    ensures durable { IsDurable (state S.Store one.new) }
    ensures other_durable { IsDurable (state D.Store other.new) }
    ensures survives { CommitsNothing (state S.Store one.old) (state S.Store one.new) }
    ensures other_survives { CommitsNothing (state D.Store other.old) (state D.Store other.new) }
{
    let _before = one.is_autocommit();
    let _other_before = other.is_autocommit();
    let found = compare_in_transactions(alloc, verifier, one, other, query);
    let _after = one.is_autocommit();
    let _other_after = other.is_autocommit();
    found
}

/// The same of a store and one over files, in a function of its own for the prover alone.
fn compare_with_files<V: Verifier, S: Alter, D: Disk + Drop>(
    alloc: Global,
    verifier: &V,
    one: &mut Connection<S>,
    other: &mut Connection<FileStore<D>>,
    query: &Query<'_>,
) -> Result<Comparison, Fault>
    requires idle { one.old.in_transaction ≡ false }
    requires other_idle { other.old.in_transaction ≡ false }
    ensures idle { one.new.in_transaction ≡ false }
    ensures other_idle { other.new.in_transaction ≡ false }
    ensures looks { LooksAtBoth (state S.Store one.old) (state S.Store one.new)
        (file_state other.old) (file_state other.new)
        (IsComparison (V.accepts verifier.now) (seen_query query.now)) result }
    ensures caused { LooksAtBothForCause (state S.Store one.old) (state S.Store one.new)
        (file_state other.old) (file_state other.new) result }
    ensures open { BothAnswerOnlyIfOpen (V.accepts verifier.now) (seen_query query.now)
        (state S.Store one.old) (state S.Store one.new)
        (file_state other.old) (file_state other.new) result }
    ensures valid { IfErr result
        (IsFaultOfValidPath (V.accepts verifier.now) (seen_query query.now)) }
    ensures settled { AreSettled (state S.Store one.old) (state S.Store one.new) }
    ensures other_settled { AreSettled (file_state other.old) (file_state other.new) }
    ensures durable { IsDurable (state S.Store one.new) }
    ensures other_durable { IsDurable (file_state other.new) }
    ensures survives { CommitsNothing (state S.Store one.old) (state S.Store one.new) }
    ensures other_survives { CommitsNothing (file_state other.old) (file_state other.new) }
{
    compare_stores(alloc, verifier, one, other, query)
}

/// Compares the verdicts of two parties on a path. Both have to judge signatures by one relation, which the caller has to know. If the
/// path does not meet the conditions of RFC 5280, 6.1, neither store is asked. `Differ` is never answered if both hold the same newest for
/// the path and what they hold is consistent. Nothing changes. `Fault::Store` means that a store does not answer, `Fault::Memory` that
/// there is no memory.
pub fn compare<V: Verifier + Drop, D: Disk + Drop>(
    alloc: Global,
    one: &mut Node<V, D>,
    other: &mut Node<V, D>,
    query: &Query<'_>,
) -> Result<Comparison, Fault>
    requires one_relation { V.accepts one.old.verifier ≡ V.accepts other.old.verifier }
    ensures verifier { one.new.verifier ≡ one.old.verifier }
    ensures profile { one.new.store.profile ≡ one.old.store.profile }
    ensures other_verifier { other.new.verifier ≡ other.old.verifier }
    ensures other_profile { other.new.store.profile ≡ other.old.store.profile }
    ensures looks { LooksAtBoth (stored one.old) (stored one.new)
        (stored other.old) (stored other.new)
        (IsComparison (V.accepts one.old.verifier) (seen_query query.now)) result }
    ensures caused { LooksAtBothForCause (stored one.old) (stored one.new)
        (stored other.old) (stored other.new) result }
    ensures open { BothAnswerOnlyIfOpen (V.accepts one.old.verifier) (seen_query query.now)
        (stored one.old) (stored one.new)
        (stored other.old) (stored other.new) result }
    ensures valid { IfErr result
        (IsFaultOfValidPath (V.accepts one.old.verifier) (seen_query query.now)) }
    ensures never { NeverDifferIfClean (V.accepts one.old.verifier) (seen_query query.now)
        (stored one.old) (stored one.new) (stored other.old) (stored other.new) result }
    ensures durable { IsDurable (stored one.new) }
    ensures other_durable { IsDurable (stored other.new) }
    ensures survives { CommitsNothing (stored one.old) (stored one.new) }
    ensures other_survives { CommitsNothing (stored other.old) (stored other.new) }
{
    comparison_laws();
    compare_with_files(
        alloc,
        &one.verifier,
        &mut one.store.conn,
        &mut other.store.conn,
        query,
    )
}
