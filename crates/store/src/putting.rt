//! Facts that are put into a store between transactions.

ghost use Rattle.std.specs.Prelude.{◌≡◌, false};
ghost use Rattle.sqlite.specs.Held.{state};
ghost use Rattle.store_adoption.specs.Creates.{IsSettled};
ghost use Rattle.store_taking.specs.Delivery.{AllOrNothing, PutsFacts};
ghost use Rattle.store_taking.specs.Room.{PutsForCause};

use sqlite::{Alter, Connection};
use statements_facts::{Counts, Facts};
use store_sql::StoreFault;

/// As `Store::put`, over a connection. It is generic in the store for the prover alone: over files each of the three calls would cost it
/// half a minute.
pub(crate) fn put<S: Alter>(
    conn: &mut Connection<S>,
    facts: &Facts<'_>,
) -> Result<Counts, StoreFault>
    requires idle { conn.old.in_transaction ≡ false }
    ensures idle { conn.new.in_transaction ≡ false }
    ensures puts { PutsFacts (state S.Store conn.old) (state S.Store conn.new) facts.now result }
    ensures caused { PutsForCause
        (state S.Store conn.old) (state S.Store conn.new) facts.now result }
    ensures settled { IsSettled (state S.Store conn.old) × IsSettled (state S.Store conn.new) }
    ensures survives { AllOrNothing (state S.Store conn.old) (state S.Store conn.new) facts.now }
{
    let _before = conn.is_autocommit();
    let counts = store_taking::put(conn, facts);
    let _after = conn.is_autocommit();
    counts
}
