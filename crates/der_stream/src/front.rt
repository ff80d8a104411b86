//! The first octets of a source: enough of them to tell what its first values are.

ghost use Rattle.std.specs.Prelude.{◌≡◌, ◌+◌, ◌<◌, ◌≤◌, length, drop, IfErr, IfOk, OnOk};
ghost use Rattle.std.specs.Io.KnownBytes.{Consumes, IsAtEnd};
ghost use Rattle.der_stream.specs.Front.{ReadsBehind, IsFilled, IsHeader, IsWholeOrNone, IsEnough, AreAllNeeded, OneIsShown, EachIsShown};
ghost use Rattle.der_stream.specs.Stream.{IsNoRefusal};

use crate::reading::{ReadFault, read_more};
use der::{Fault, Header};
use std::alloc::Global;
use std::io::Read;

// Reads once behind the octets of the buffer, which then has at most `len`, and answers how many octets came: none only at the end.
fn read_on<R: Read>(source: &mut R, octets: &mut Vec<u8>, len: usize) -> Result<usize, ReadFault>
    requires { length octets.old.items < len }
    ensures read { OnOk result
        (ReadsBehind (R.remaining source.old) (R.remaining source.new) octets.old octets.new) }
    ensures count { IfOk result (λ count.
        length octets.new.items ≡ length octets.old.items + count) }
    ensures within { OnOk result (length octets.new.items ≤ len) }
    ensures end { IfOk result (λ count. count ≡ 0 → IsAtEnd (R.remaining source.new)) }
    ensures err { IfErr result (λ fault. IsNoRefusal fault) }
{
    let filled = octets.len();
    let count = read_more(source, octets, filled, len)?;
    octets.truncate(filled + count);
    Ok(count)
}

// Reads until the buffer has `len` octets, or the source ends.
fn fill<R: Read>(source: &mut R, octets: &mut Vec<u8>, len: usize) -> Result<(), ReadFault>
    ensures read { OnOk result
        (ReadsBehind (R.remaining source.old) (R.remaining source.new) octets.old octets.new) }
    ensures filled { OnOk result (IsFilled len octets.new.items (R.remaining source.new)) }
    ensures within { OnOk result (length octets.old.items ≤ len → length octets.new.items ≤ len) }
    ensures err { IfErr result (λ fault. IsNoRefusal fault) }
{
    while octets.len() < len {
        if read_on(source, octets, len)? == 0 {
            return Ok(());
        }
    }
    Ok(())
}

// Reads the header of the next value behind the octets of the buffer, and answers how many octets its contents have; `None` if the source
// ends within it, or if it is refused.
fn read_header<R: Read>(source: &mut R, octets: &mut Vec<u8>) -> Result<Option<usize>, ReadFault>
    ensures read { OnOk result
        (ReadsBehind (R.remaining source.old) (R.remaining source.new) octets.old octets.new) }
    ensures header { IfOk result
        (IsHeader (drop (length octets.old.items) octets.new.items) (R.remaining source.new)) }
    ensures err { IfErr result (λ fault. IsNoRefusal fault) }
{
    let begin = octets.len();
    'octets: loop {
        let len = octets.len() + 1;
        if read_on(source, octets, len)? == 0 {
            return Ok(None);
        }
        match Header::begun(&octets[begin..]) {
            Ok(None) => {}
            Ok(Some(header)) => return Ok(Some(header.contents)),
            Err(_) => return Ok(None),
        }
    }
}

// Reads the next value behind the octets of the buffer, and answers whether it came whole.
fn read_value<R: Read>(source: &mut R, octets: &mut Vec<u8>) -> Result<bool, ReadFault>
    ensures read { OnOk result
        (ReadsBehind (R.remaining source.old) (R.remaining source.new) octets.old octets.new) }
    ensures whole { IfOk result
        (IsWholeOrNone (drop (length octets.old.items) octets.new.items) (R.remaining source.new)) }
    ensures err { IfErr result (λ fault. IsNoRefusal fault) }
{
    let Some(contents) = read_header(source, octets)? else {
        return Ok(false);
    };
    let Some(len) = octets.len().checked_add(contents) else {
        return Err(ReadFault::Fault(Fault::Memory));
    };
    fill(source, octets, len)?;
    Ok(octets.len() == len)
}

/// Reads the first values of the source, `most` of them, and one octet behind them, which shows that something follows. Reads less if the
/// source ends, or if a header is refused: then the octet that shows it is the last. The contents of the values are not looked at.
///
/// So a source without an end is read no further than its first values. Whatever it holds behind the octets that are answered, its fault
/// is their fault (`front_laws`).
///
/// Fails if the source answers an error, or without memory. Time is linear in the octets read, plus that of the source.
pub fn read_front<R: Read>(alloc: Global, source: &mut R, most: u32) -> Result<Vec<u8>, ReadFault>
    ensures read { IfOk result (λ octets.
        Consumes (R.remaining source.old) (R.remaining source.new) octets.items) }
    ensures enough { IfOk result (λ octets. IsEnough most octets.items (R.remaining source.new)) }
    ensures needed { IfOk result (λ octets. AreAllNeeded most octets.items) }
    ensures err { IfErr result (λ fault. IsNoRefusal fault) }
{
    let mut octets = Vec::new(alloc);
    for _ in 0..most {
        if !read_value(source, &mut octets)? {
            return Ok(octets);
        }
    }
    let Some(len) = octets.len().checked_add(1) else {
        return Err(ReadFault::Fault(Fault::Memory));
    };
    fill(source, &mut octets, len)?;
    Ok(octets)
}

/// Enough octets of a source, as `read_front` answers them, have the same outcome as all of them: the same first fault, or the same value.
/// If several values are looked at, that holds from the first octet of each of them.
pub fn front_laws()
    ensures one { OneIsShown }
    ensures each { EachIsShown }
{}
