//! Entries of revocation lists, at their places.

ghost use Rattle.std.specs.Prelude.{◌≡◌, ◌<◌, ◌↔◌, ◌+◌, Err, IfOk, IsTrue, option_map, ◌≢◌};
ghost use Rattle.store_adoption.specs.Cells.{Begins, Continues, Follows, IsEntryCells, HasIdsOfPlaces, entry_of_row, IsInRoom, IsOfSameList};
ghost use Rattle.store_adoption.specs.Seen.{seen_placed, IsPlacedIn};
ghost use Rattle.store_rows.specs.Places.{IsBelow, list_base};

use crate::cell::{below, blob, place};
use crate::row_test::RowTest;
use sqlite::Row;
use std::cmp::Ordering;
use store_rows::ID_LIMIT;
use store_sql::StoreFault;

/// How many places the entries of a list have.
const ROOM: u64 = 4_294_967_296;

/// An entry, and where it stands.
#[derive(Drop)]
pub(crate) struct Placed {
    pub(crate) place: u64,
    pub(crate) issuer: u32,
    pub(crate) scope: u32,
    pub(crate) serial: Vec<u8>,
    pub(crate) reason: u32,
}

/// Where the entries of its list begin.
fn base(entry: &Placed) -> u64
    requires { HasIdsOfPlaces (seen_placed entry.now) }
    ensures value { result ≡ list_base entry.now.issuer entry.now.scope }
    ensures room { result + 4294967296 < 18446744073709551616 }
{
    (u64::from(entry.issuer) * 4 + u64::from(entry.scope)) * ROOM
}

/// Whether it is the first of its list.
fn begins(entry: &Placed) -> bool
    requires { HasIdsOfPlaces (seen_placed entry.now) }
    ensures { IsTrue result ↔ Begins (seen_placed entry.now) }
{
    entry.place == base(entry)
}

/// Whether it has a place that its list may have.
fn has_room(entry: &Placed) -> bool
    requires { HasIdsOfPlaces (seen_placed entry.now) }
    ensures { IsTrue result ↔ IsInRoom (seen_placed entry.now) }
{
    entry.place < base(entry) + ROOM
}

/// Whether it is of the same list.
fn is_of_list(last: &Placed, entry: &Placed) -> bool
    ensures { IsTrue result ↔ IsOfSameList (seen_placed last.now) (seen_placed entry.now) }
{
    entry.issuer == last.issuer && entry.scope == last.scope
}

/// Whether it stands at the next place.
fn is_next(last: &Placed, entry: &Placed) -> bool
    ensures { IsTrue result ↔ (entry.now.place ≡ last.now.place + 1) }
{
    last.place < entry.place && entry.place - last.place == 1
}

/// Whether its serial number is greater.
fn is_above(last: &Placed, entry: &Placed) -> bool
    ensures { IsTrue result ↔ IsBelow (seen_placed last.now).listed (seen_placed entry.now).listed }
{
    match last.serial.as_slice().cmp(entry.serial.as_slice()) {
        Ordering::Less => true,
        _ => false,
    }
}

/// Whether it stands behind another of its list, with a greater serial number.
#[tactic(auto, using(crate::proofs::Following::continues_is))]
fn continues(last: &Placed, entry: &Placed) -> bool
    requires { HasIdsOfPlaces (seen_placed entry.now) }
    ensures { IsTrue result ↔ Continues (seen_placed last.now) (seen_placed entry.now) }
{
    is_of_list(last, entry) && is_next(last, entry) && has_room(entry) && is_above(last, entry)
}

/// Whether an entry stands where it may behind the last one.
fn follows(last: &Option<Placed>, entry: &Placed) -> bool
    requires { HasIdsOfPlaces (seen_placed entry.now) }
    ensures { IsTrue result ↔ Follows (option_map seen_placed last.now) (seen_placed entry.now) }
{
    match last {
        None => begins(entry),
        Some(last) => continues(last, entry) || begins(entry) && last.place < entry.place,
    }
}

fn read_placed(row: &Row) -> Result<Placed, StoreFault>
    ensures ok { IfOk result (IsPlacedIn row.now) }
    ensures schema { result ≡ Err StoreFault.Schema → IsEntryCells row.now → ⊥ }
    ensures cell { result ≢ Err StoreFault.Store }
{
    let place = place(row, 0)?;
    let issuer = below(row, 1, ID_LIMIT)?;
    let scope = below(row, 2, 3)?;
    let serial = blob(row, 3)?;
    let reason = below(row, 4, 256)?;
    Ok(Placed {
        place,
        issuer,
        scope,
        serial,
        reason,
    })
}

/// Each entry stands in its place.
#[derive(Drop)]
pub(crate) struct EntryTest {
    /// The one that was tested last.
    pub(crate) last: Option<Placed>,
}

impl RowTest for EntryTest {
    ghost use Rattle.std.specs.Prelude.{◌≡◌, map, None, option_map};
    ghost use Rattle.std.specs.List.{AllByRecursion};
    ghost use Rattle.store_adoption.specs.Cells.{IsEntryCells, AreChained, entry_of_row, last_of};
    ghost use Rattle.store_adoption.specs.Seen.{seen_placed};

    ghost passed = { λ test rows. AllByRecursion IsEntryCells rows × AreChained None (map entry_of_row rows) × (option_map seen_placed test.last ≡ last_of (map entry_of_row rows)) };

    ghost are_formed = { λ test rows. AllByRecursion IsEntryCells rows × AreChained None (map entry_of_row rows) };

    fn take(&mut self, row: &Row) -> Result<(), StoreFault> {
        let entry = read_placed(row)?;
        if !follows(&self.last, &entry) {
            return Err(StoreFault::Schema);
        }
        self.last = Some(entry);
        Ok(())
    }
}
