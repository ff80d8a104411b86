//! What is found in a database.

use crate::putting::{Row, tells};
use sqlite::{Alter, Connection};
use std::alloc::Global;
use store_sql::StoreFault;

/// All that a store holds.
#[derive(Clone, Copy)]
pub struct Holding {
    pub rows: &'static [Row],
    /// How many rows there are of lists' entries, and of responses.
    pub counts: (i64, i64),
}

#[derive(Clone, Copy)]
pub enum Found {
    /// A database that is not taken for a store.
    NoStore,
    Store(Holding),
    /// It was of version 1, which was migrated.
    Migrated(Holding),
}

fn count<S: Alter>(conn: &mut Connection<S>, query: &str) -> Option<i64> {
    conn.query_row(query, &[]).ok()?.get(0).ok()
}

fn holds<S: Alter>(alloc: Global, conn: &mut Connection<S>, holding: &Holding) -> bool {
    tells(alloc, conn, holding.rows).is_ok()
        && count(conn, "SELECT count(*) FROM scoped_entries") == Some(holding.counts.0)
        && count(conn, "SELECT count(*) FROM ocsp") == Some(holding.counts.1)
}

/// Whether it is one of these, where it was of version 1, and was taken for a store or not.
pub fn is_one_of<S: Alter>(
    alloc: Global,
    conn: &mut Connection<S>,
    wanted: &[Found],
    was_old: bool,
    taken: Result<(), StoreFault>,
) -> bool {
    for found in wanted {
        let is_so = match found {
            Found::NoStore => taken == Err(StoreFault::Schema),
            Found::Store(holding) => taken.is_ok() && !was_old && holds(alloc, conn, holding),
            Found::Migrated(holding) => taken.is_ok() && was_old && holds(alloc, conn, holding),
        };
        if is_so {
            return true;
        }
    }
    false
}
