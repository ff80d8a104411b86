//! The verdict on a certificate under the paths that lead to it, in a transaction that is dropped.

ghost use Rattle.std.specs.Prelude.{◌≡◌, false, IfErr};
ghost use Rattle.sqlite.specs.Held.{state};
ghost use Rattle.path_issuers.specs.View.{seen_search};
ghost use Rattle.store_sql.specs.Statements.{IsDurable, CommitsNothing};
ghost use Rattle.relying_search.specs.Finding.{FindsHolding};
ghost use Rattle.relying.specs.Asking.{AreSettled, FindsOnlyIfOpen, Looks, LooksForCause, LooksInside};
ghost use Rattle.relying_verdicts.specs.Looking.{IsFaultOfValidCandidate};

use path_search::Search;
use path_verifiers::Verifier;
use relying_search::{Finding, FindingBudget};
use relying_verdicts::{Fault, find};
use sqlite::{Alter, Connection};
use std::alloc::Global;

fn find_in_transaction<V: Verifier, S: Alter>(
    alloc: Global,
    verifier: &V,
    conn: &mut Connection<S>,
    search: &Search<'_, '_>,
    budget: FindingBudget,
) -> Result<Finding, Fault>
    requires idle { conn.old.in_transaction ≡ false }
    ensures idle { conn.new.in_transaction ≡ false }
    ensures looks { LooksInside (state S.Store conn.old) (state S.Store conn.new)
        (FindsHolding (V.accepts verifier.now) (seen_search search.now) budget) result }
    ensures caused { LooksForCause (state S.Store conn.old) (state S.Store conn.new) result }
    ensures open { FindsOnlyIfOpen (V.accepts verifier.now) (seen_search search.now) budget
        (state S.Store conn.old) (state S.Store conn.new) result }
    ensures valid { IfErr result
        (IsFaultOfValidCandidate (V.accepts verifier.now) (seen_search search.now)) }
    ensures survives { CommitsNothing (state S.Store conn.old) (state S.Store conn.new) }
{
    let mut tx = conn.transaction();
    find(alloc, verifier, &mut tx, search, budget)
}

/// What is found by what the store on a connection holds, in a transaction that is dropped.
pub fn find_over<V: Verifier, S: Alter>(
    alloc: Global,
    verifier: &V,
    conn: &mut Connection<S>,
    search: &Search<'_, '_>,
    budget: FindingBudget,
) -> Result<Finding, Fault>
    requires idle { conn.old.in_transaction ≡ false }
    ensures idle { conn.new.in_transaction ≡ false }
    ensures looks { Looks (state S.Store conn.old) (state S.Store conn.new)
        (FindsHolding (V.accepts verifier.now) (seen_search search.now) budget) result }
    ensures caused { LooksForCause (state S.Store conn.old) (state S.Store conn.new) result }
    ensures settled { AreSettled (state S.Store conn.old) (state S.Store conn.new) }
    ensures durable { IsDurable (state S.Store conn.new) }
    ensures open { FindsOnlyIfOpen (V.accepts verifier.now) (seen_search search.now) budget
        (state S.Store conn.old) (state S.Store conn.new) result }
    ensures valid { IfErr result
        (IsFaultOfValidCandidate (V.accepts verifier.now) (seen_search search.now)) }
    ensures survives { CommitsNothing (state S.Store conn.old) (state S.Store conn.new) }
{
    let _before = conn.is_autocommit();
    let found = find_in_transaction(alloc, verifier, conn, search, budget);
    let _after = conn.is_autocommit();
    found
}
