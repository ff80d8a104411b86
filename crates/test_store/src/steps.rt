//! Steps over an empty database on disks in memory.

use crate::overview::{List, are_issuers, are_lists, are_singles, overview};
use crate::putting::{add, found, issuer, listed, make, put_entries, put_list, put_single, said};
use sqlite::{Alter, Connection, Files, Options};
use sqlite_disk::{Disk, Memory};
use statements_facts::{Issuer, Listed, OcspAnswer, Scope, Single};
use std::alloc::Global;
use store_rows::ListKey;
use store_sql::{Origin, StoreFault, is_empty, is_version_1, origin_of};

/// What is done, or looked for.
#[derive(Clone, Copy)]
pub enum Step {
    /// The tables of a store are made.
    Make,
    Execute(&'static str),
    /// How the tables came to be those of a store; whether they are those of version 1; whether there are none.
    Tables(Option<Origin>, bool, bool),
    /// The issuer with this key is added.
    Add(&'static [u8]),
    /// It has this id.
    HasId(&'static [u8], u32),
    /// A list with this number is put.
    PutList(ListKey, u8),
    PutEntries(ListKey, &'static [Listed<'static>]),
    /// By the issuer's key, what is found of a serial number: the number of the list, and the reason; 0 and 255 where there is none.
    Lists(&'static [u8], Scope, &'static [u8], Result<(u8, u8), StoreFault>),
    PutSingle(u32, Single<'static>),
    /// By the issuer's key, this is found.
    Says(&'static [u8], Single<'static>),
    /// The store's listing has these issuers: ids and keys.
    HoldsIssuers(&'static [(u32, &'static [u8])]),
    /// It has these lists.
    HoldsLists(&'static [List]),
    /// It has these responses, by the ids of their issuers.
    HoldsSingles(&'static [(u32, Single<'static>)]),
    /// It is refused.
    RefusesListing(StoreFault),
    /// By the issuer's key, the same look-up is refused.
    Refuses(&'static [u8], Single<'static>, StoreFault),
}

fn has_tables<S: Alter>(
    conn: &Connection<S>,
    origin: Option<Origin>,
    is_old: bool,
    is_none: bool,
) -> bool {
    let schema = conn.schema();
    origin_of(schema) == origin && is_version_1(schema) == is_old && is_empty(schema) == is_none
}

pub fn is_same(said: &OcspAnswer, single: &Single<'_>) -> bool {
    said.this_update == single.this_update
        && said.produced_at == single.produced_at
        && said.from == single.from
        && said.until == single.until
        && said.status == single.status
}

fn says<S: Alter>(conn: &mut Connection<S>, issuer: &Issuer<'_>, single: &Single<'_>) -> bool {
    match said(conn, issuer, single) {
        Some(Ok(Some(said))) => is_same(&said, single),
        _ => false,
    }
}

fn refuses<S: Alter>(
    conn: &mut Connection<S>,
    issuer: &Issuer<'_>,
    single: &Single<'_>,
    wanted: StoreFault,
) -> bool {
    match said(conn, issuer, single) {
        Some(Err(fault)) => fault == wanted,
        _ => false,
    }
}

/// Whether the step was done, of those about an issuer.
fn asks<S: Alter>(conn: &mut Connection<S>, issuer: &Issuer<'_>, step: &Step) -> bool {
    match *step {
        Step::Add(_key) => add(conn, issuer),
        Step::HasId(_key, id) => found(conn, issuer) == Some(id),
        Step::Lists(_key, scope, serial, wanted) => {
            listed(conn, issuer, scope, serial) == Some(wanted)
        }
        Step::Says(_key, single) => says(conn, issuer, &single),
        Step::Refuses(_key, single, fault) => refuses(conn, issuer, &single, fault),
        _ => false,
    }
}

/// Whether the step was done, of those about a listing.
fn lists<S: Alter>(alloc: Global, conn: &mut Connection<S>, step: &Step) -> bool {
    match (overview(alloc, conn), *step) {
        (Some(Ok(all)), Step::HoldsIssuers(wanted)) => are_issuers(&all.issuers, wanted),
        (Some(Ok(all)), Step::HoldsLists(wanted)) => are_lists(&all.lists, wanted),
        (Some(Ok(all)), Step::HoldsSingles(wanted)) => are_singles(&all.singles, wanted),
        (Some(Err(fault)), Step::RefusesListing(wanted)) => fault == wanted,
        _ => false,
    }
}

/// Whether the step was done.
fn does<S: Alter>(alloc: Global, conn: &mut Connection<S>, step: &Step) -> bool {
    match *step {
        Step::Make => make(conn),
        Step::Execute(sql) => conn.execute_batch(sql).is_ok(),
        Step::Tables(origin, is_old, is_none) => has_tables(conn, origin, is_old, is_none),
        Step::PutList(list, number) => put_list(conn, &list, number),
        Step::PutEntries(list, listed) => put_entries(alloc, conn, &list, listed),
        Step::PutSingle(id, single) => put_single(conn, id, &single),
        Step::HoldsIssuers(_)
        | Step::HoldsLists(_)
        | Step::HoldsSingles(_)
        | Step::RefusesListing(_) => lists(alloc, conn, step),
        Step::Add(key)
        | Step::HasId(key, _)
        | Step::Lists(key, _, _, _)
        | Step::Says(key, _)
        | Step::Refuses(key, _, _) => match issuer(alloc, key) {
            Some(issuer) => asks(conn, &issuer, step),
            None => false,
        },
    }
}

fn walk<S: Alter>(alloc: Global, conn: &mut Connection<S>, steps: &[Step]) -> Option<usize> {
    for (at, step) in steps.iter().enumerate() {
        if !does(alloc, conn, step) {
            return Some(at);
        }
    }
    None
}

fn undone_over<D: Disk + Drop>(alloc: Global, files: Files<D>, steps: &[Step]) -> Option<usize> {
    if !files.may_be_used() {
        return Some(0);
    }
    match Connection::open_files(alloc, files, Options::new(7)) {
        Ok(mut conn) => {
            let undone = walk(alloc, &mut conn, steps);
            conn.into_store().close();
            undone
        }
        Err((_error, left)) => {
            left.into_files();
            Some(0)
        }
    }
}

/// The first step that was not done, or found something else; `None` where all were done.
pub fn undone(alloc: Global, steps: &[Step]) -> Option<usize> {
    let files = Files {
        log: Memory::new(alloc),
        db: Memory::new(alloc),
    };
    undone_over(alloc, files, steps)
}
