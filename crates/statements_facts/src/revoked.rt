//! The serial numbers that a list revokes.

ghost use Rattle.std.specs.Prelude.{◌≡◌, ℕ, List, IfOk, IsTrue, map};
ghost use Rattle.statements_facts.specs.Listed.{IsAscending, first_reason, seen_listed};

use crate::by_prefix::{
    arranged_by_prefix, beside_prefixes, prefixes_ascend, sorted_by_prefix, without_prefixes,
};
use std::alloc::{AllocError, Global};
use std::marker::Model;

/// A serial number that a list revokes, with the number of its reason (RFC 5280, 5.3.1).
#[derive(Clone, Copy)]
pub struct Listed<'a> {
    /// The contents octets of the serial number.
    pub serial: &'a [u8],
    pub reason: u8,
}

/// The serial numbers that a list revokes, ascending by their octets, each once with its reason.
#[derive(Drop)]
pub struct RevokedSerials<'a> {
    listed: Vec<Listed<'a>>,
}

impl<'a> Model for RevokedSerials<'a> {
    ghost use Rattle.std.specs.Prelude.{List, map};
    ghost use Rattle.statements_facts.specs.Listed.{IsAscending, ListedSerial, seen_listed};

    ghost Value = { List ListedSerial };

    ghost view = { λ revoked. map seen_listed revoked.listed.items };

    ghost invariant = { λ revoked. IsAscending (map seen_listed revoked.listed.items) };
}

/// Whether the serial numbers ascend.
fn ascend(listed: &[Listed<'_>]) -> bool
    ensures { IsTrue result → IsAscending (map seen_listed listed.now) }
{
    for place in 1..listed.len() {
        if listed[place - 1].serial.cmp(listed[place].serial).is_ge() {
            return false;
        }
    }
    true
}

/// Of entries as they stand in a list the first of each serial number, ascending.
fn first_of_each(listed: Vec<Listed<'_>>) -> Result<Vec<Listed<'_>>, AllocError>
    ensures ascend { IfOk result (λ left. IsAscending (map seen_listed left.items)) }
    ensures reasons { IfOk result (λ left. (serial : List ℕ) →
        first_reason (map seen_listed left.items) serial
        ≡ first_reason (map seen_listed listed.entry.items) serial) }
{
    let mut listed = listed;
    listed.sort_by_key(|entry| entry.serial)?;
    listed.dedup_by_key(|entry| entry.serial);
    Ok(listed)
}

/// The same, over entries that were sorted by the prefixes of their serial numbers before.
fn first_of_each_by_prefix(listed: Vec<Listed<'_>>) -> Result<Vec<Listed<'_>>, AllocError>
    ensures ascend { IfOk result (λ left. IsAscending (map seen_listed left.items)) }
    ensures reasons { IfOk result (λ left. (serial : List ℕ) →
        first_reason (map seen_listed left.items) serial
        ≡ first_reason (map seen_listed listed.entry.items) serial) }
{
    let prefixed = beside_prefixes(*listed.allocator(), listed.as_slice())?;
    let sorted = sorted_by_prefix(prefixed)?;
    first_of_each(without_prefixes(listed, sorted.as_slice())?)
}

/// The same. Entries that ascend stay as they stand. Where the prefixes tell all serial numbers apart, as in nearly all lists, none is
/// listed twice, so that a sort may leave those that tie in any order.
fn each_once(listed: Vec<Listed<'_>>) -> Result<Vec<Listed<'_>>, AllocError>
    ensures ascend { IfOk result (λ left. IsAscending (map seen_listed left.items)) }
    ensures reasons { IfOk result (λ left. (serial : List ℕ) →
        first_reason (map seen_listed left.items) serial
        ≡ first_reason (map seen_listed listed.entry.items) serial) }
{
    if ascend(listed.as_slice()) {
        return Ok(listed);
    }
    let prefixed = beside_prefixes(*listed.allocator(), listed.as_slice())?;
    let arranged = arranged_by_prefix(prefixed);
    if prefixes_ascend(arranged.as_slice()) {
        return without_prefixes(listed, arranged.as_slice());
    }
    drop(arranged);
    first_of_each_by_prefix(listed)
}

impl<'a> RevokedSerials<'a> {
    /// Sorts entries as they stand in a list; a serial number that is listed more than once has its first reason. Time is n log n, and
    /// linear if they ascend already. Sorting takes memory for twice as many entries, and for three times as many if their prefixes do not
    /// tell them apart.
    pub fn of_entries(listed: Vec<Listed<'a>>) -> Result<RevokedSerials<'a>, AllocError>
        ensures ascend { IfOk result (λ revoked. IsAscending revoked) }
        ensures reasons { IfOk result (λ revoked. (serial : List ℕ) →
            first_reason revoked serial
            ≡ first_reason (map seen_listed listed.entry.items) serial) }
    {
        let listed = each_once(listed)?;
        Ok(RevokedSerials { listed })
    }

    /// Where the entries lie.
    pub fn allocator(&self) -> Global {
        *self.listed.allocator()
    }

    /// The entries, ascending by serial number.
    pub fn as_slice(&self) -> &[Listed<'a>]
        ensures entries { map seen_listed result.now ≡ self.now }
        ensures ascend { IsAscending self.now }
    {
        self.listed.as_slice()
    }
}
