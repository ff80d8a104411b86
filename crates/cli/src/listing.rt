//! What the store at a path holds, as lines of text.
ghost use Rattle.std.specs.Prelude.{◌≡◌, IfErr, IfOk, OnOk};
ghost use Rattle.cli_failures.specs.Report.{UnlessLate};
ghost use Rattle.sqlite.specs.Files.{file_state};
ghost use Rattle.store_adoption.specs.Creates.{IsSettled};
ghost use Rattle.store_sql.specs.Statements.{IsDurable};
ghost use Rattle.cli_store.specs.Standing.{IsNoAnswer, IsOpenIfClean, seen_in, the_same};
ghost use Rattle.cli.specs.Checked.{IsNotChecked};
ghost use Rattle.cli.specs.Listed.{FailsToList, HasListed, IsFailureOfListing, IsListed, IsListedAt, WritesListing, given};

use cli_answers::write_front;
use cli_failures::Failure;
use cli_operands::read_moment;
use cli_steps::listing_lines;
use cli_store::{Stores, failed};
use relying::Fault;
use sqlite_disk::Disk;
use std::alloc::Global;
use std::io::Write;
use store::Store;
use store_listing::{held_laws, read_listing};

// The lines of the store, which is closed then.
fn list_in<'a, D: Disk + Drop, S: Stores<Store<D>>>(
    source: &S,
    alloc: Global,
    path: &str,
    store: Store<D>,
    at: Option<i64>,
) -> Result<Vec<u8>, Failure<'a>>
    requires open { IsOpenIfClean (file_state store.conn) }
    requires settled { IsSettled (file_state store.conn) }
    requires durable { IsDurable (file_state store.conn) }
    ensures listed { IfOk result (λ text.
        HasListed (S.places source.now) path.now at (seen_in store)
        text.items) }
    ensures fails { IfErr result (IsNoAnswer (S.places source.now)
        path.now the_same (seen_in store)) }
{
    let mut store = store;
    held_laws();
    let all = read_listing(alloc, &mut store.conn);
    source.close_store(path, store);
    match all {
        Ok(all) => listing_lines(alloc, &all, at),
        Err(fault) => Err(failed(Fault::Store(fault))),
    }
}

// The lines of the store at the path.
fn list_at<'a, D: Disk + Drop, S: Stores<Store<D>>>(
    source: &S,
    alloc: Global,
    path: &'a str,
    at: Option<i64>,
) -> Result<Vec<u8>, Failure<'a>>
    ensures listed { IfOk result (λ text. IsListedAt (S.places source.now)
        path.entry.now at text.items) }
    ensures fails { IfErr result
        (IsNotChecked (S.places source.now) path.entry.now) }
{
    let store = source.open_store(path)?;
    list_in(source, alloc, path, store, at)
}

// The lines that are asked for.
fn list_asked<'a, D: Disk + Drop, S: Stores<Store<D>>>(
    source: &S,
    alloc: Global,
    path: &'a str,
    moment: Option<&'a str>,
) -> Result<Vec<u8>, Failure<'a>>
    ensures listed { IfOk result (λ text. IsListed (S.places source.now)
        path.entry.now (given moment.entry) text.items) }
    ensures fails { IfErr result (IsFailureOfListing (S.places source.now)
        path.entry.now (given moment.entry)) }
{
    let at = read_moment(moment)?;
    list_at(source, alloc, path, at)
}

/// Writes what the store at the path holds: a line for each list, and then one for each response (`cli_listing::listing_to`). With a
/// moment, each line ends in whether the statement is in force then. Nothing changes in the store.
pub fn list<'a, D: Disk + Drop, S: Stores<Store<D>>, O: Write>(
    source: &S,
    alloc: Global,
    path: &'a str,
    moment: Option<&'a str>,
    out: &mut O,
) -> Result<(), Failure<'a>>
    ensures done { OnOk result (WritesListing (S.places source.now)
        path.entry.now
        moment.entry O.contents out.old out.new) }
    ensures fails { IfErr result (FailsToList (S.places source.now) path.entry.now
        (given moment.entry) (O.contents out.old) (O.contents out.new)) }
    ensures quiet { IfErr result (λ failure. UnlessLate failure (out.new ≡ out.old)) }
{
    let text = list_asked(source, alloc, path, moment)?;
    match write_front(text.as_slice(), out) {
        Ok(()) => Ok(()),
        Err(_) => Err(Failure::Unwritable),
    }
}
