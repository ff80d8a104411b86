//! Connections between transactions.

ghost use Rattle.std.specs.Prelude.{◌≡◌, false};
ghost use Rattle.sqlite.specs.Held.{state};
ghost use Rattle.store_adoption.specs.Creates.{IsSettled};
ghost use Rattle.store_sql.specs.Statements.{IsDurable};

use sqlite::{Alter, Connection};

/// Does nothing: a function for the prover alone. What a connection between transactions shows is committed, and while it is open a crash
/// leaves just that.
pub(crate) fn at_rest<S: Alter>(conn: &Connection<S>)
    requires idle { conn.now.in_transaction ≡ false }
    ensures settled { IsSettled (state S.Store conn.now) }
    ensures durable { IsDurable (state S.Store conn.now) }
{
    let _settled = conn.is_autocommit();
}
