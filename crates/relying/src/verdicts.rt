//! Verdicts, in a transaction that is dropped.

ghost use Rattle.std.specs.Prelude.{◌≡◌, false, IfErr};
ghost use Rattle.sqlite.specs.Held.{state};
ghost use Rattle.store_sql.specs.Statements.{IsDurable, CommitsNothing};
ghost use Rattle.relying_agreement.specs.Verdict.{IsVerdict};
ghost use Rattle.relying.specs.Asking.{AnswersOnlyIfOpen, AreSettled, Looks, LooksForCause, LooksInside};
ghost use Rattle.relying_verdicts.specs.Asking.{IsFaultOfValidPath};
ghost use Rattle.path.specs.Reading.{seen_query};

use path_verifiers::Verifier;
use relying_verdicts::{Fault, Query, Verdict, verdict};
use sqlite::{Alter, Connection};
use std::alloc::Global;

fn verdict_in_transaction<V: Verifier, S: Alter>(
    alloc: Global,
    verifier: &V,
    conn: &mut Connection<S>,
    query: &Query<'_>,
) -> Result<Verdict, Fault>
    requires idle { conn.old.in_transaction ≡ false }
    ensures idle { conn.new.in_transaction ≡ false }
    ensures looks { LooksInside (state S.Store conn.old) (state S.Store conn.new)
        (IsVerdict (V.accepts verifier.now) (seen_query query.now)) result }
    ensures caused { LooksForCause (state S.Store conn.old) (state S.Store conn.new) result }
    ensures open { AnswersOnlyIfOpen (V.accepts verifier.now) (seen_query query.now)
        (state S.Store conn.old) (state S.Store conn.new) result }
    ensures valid { IfErr result
        (IsFaultOfValidPath (V.accepts verifier.now) (seen_query query.now)) }
    ensures survives { CommitsNothing (state S.Store conn.old) (state S.Store conn.new) }
{
    let mut tx = conn.transaction();
    verdict(alloc, verifier, &mut tx, query)
}

/// The verdict on a path by what the store on a connection holds, in a transaction that is dropped.
pub fn verdict_of<V: Verifier, S: Alter>(
    alloc: Global,
    verifier: &V,
    conn: &mut Connection<S>,
    query: &Query<'_>,
) -> Result<Verdict, Fault>
    requires idle { conn.old.in_transaction ≡ false }
    ensures idle { conn.new.in_transaction ≡ false }
    ensures looks { Looks (state S.Store conn.old) (state S.Store conn.new)
        (IsVerdict (V.accepts verifier.now) (seen_query query.now)) result }
    ensures caused { LooksForCause (state S.Store conn.old) (state S.Store conn.new) result }
    ensures settled { AreSettled (state S.Store conn.old) (state S.Store conn.new) }
    ensures durable { IsDurable (state S.Store conn.new) }
    ensures open { AnswersOnlyIfOpen (V.accepts verifier.now) (seen_query query.now)
        (state S.Store conn.old) (state S.Store conn.new) result }
    ensures valid { IfErr result
        (IsFaultOfValidPath (V.accepts verifier.now) (seen_query query.now)) }
    ensures survives { CommitsNothing (state S.Store conn.old) (state S.Store conn.new) }
{
    let _before = conn.is_autocommit();
    let found = verdict_in_transaction(alloc, verifier, conn, query);
    let _after = conn.is_autocommit();
    found
}
