//! Values from a source of octets, one at a time.

ghost use Rattle.std.specs.Prelude.{◌≡◌, ◌+◌, ◌*◌, ◌<◌, ◌≤◌, [], Option, length, take, IfOk, IfErr, IfSome, OnOk};
ghost use Rattle.std.specs.Io.{StartsWith};
ghost use Rattle.std.specs.Io.KnownBytes.{IsAtEnd};
ghost use Rattle.der.specs.declared.fault.Fault.TheVariants.{Refused};
ghost use Rattle.der_stream.specs.Stream.{OneAnswer, IsHeaderRead, IsNoRefusal, ReadsOctet, ReadsHeader, IsHeaderFault, Fills, ReadsMore, IsContentsFault, IsValueWithin, TakesOctets, IsRefusedBy};
ghost use Rattle.der_stream.specs.Fault.{read_fault_number, read_fault_name, read_fault_place};

use der::{Fault, Header, Rule, check};
use std::alloc::{AllocError, Global};
use std::io::Read;
use thiserror::Error;

/// Why no value was taken from a source.
#[derive(Clone, Copy, Debug, PartialEq, Eq, Error)]
pub enum ReadFault {
    /// The octets that the source has left do not begin with a value, or there is no memory.
    #[error("{0}")]
    Fault(Fault),
    /// The next value has more octets than the caller allows.
    #[error("fault 10: value past the limit")]
    Limit,
    /// The source answered an error.
    #[error("source that cannot be read")]
    Io,
}

impl ReadFault {
    /// The number of the fault, from 1 to 8 or 10; `None` for an error of the source.
    pub fn number(self) -> Option<u8>
        ensures { result ≡ read_fault_number self }
    {
        match self {
            ReadFault::Fault(fault) => Some(fault.number()),
            ReadFault::Limit => Some(10),
            ReadFault::Io => None,
        }
    }

    /// The name of the fault, printed beside the number.
    pub fn name(self) -> &'static str
        ensures { result.now ≡ read_fault_name self }
    {
        match self {
            ReadFault::Fault(fault) => fault.name(),
            ReadFault::Limit => "Limit",
            ReadFault::Io => "Io",
        }
    }

    /// The offset in the value that was being read; `None` for lack of memory and errors of the source.
    pub fn place(self) -> Option<usize>
        ensures { result ≡ read_fault_place self }
    {
        match self {
            ReadFault::Fault(fault) => fault.place(),
            ReadFault::Limit => Some(0),
            ReadFault::Io => None,
        }
    }
}

/// The fault of a rule that the value itself breaks.
fn refused(rule: Rule) -> ReadFault
    ensures { result ≡ ReadFault.Fault (Refused rule 0) }
{
    ReadFault::Fault(Fault::Refused(rule, 0))
}

/// The next octet of the source; `None` at its end.
fn read_octet<R: Read>(source: &mut R) -> Result<Option<u8>, ReadFault>
    ensures read { IfOk result (ReadsOctet (R.remaining source.old) (R.remaining source.new)) }
    ensures err { IfErr result (λ fault. fault ≡ ReadFault.Io) }
{
    let mut octet = [0u8; 1];
    match source.read(&mut octet) {
        Ok(0) => Ok(None),
        Ok(_) => Ok(Some(octet[0])),
        Err(_) => Err(ReadFault::Io),
    }
}

/// Reads the header of the next value into the empty buffer, one octet at a time, and answers how many octets the value has;
/// `None` at the end of the source.
fn read_header<R: Read>(source: &mut R, octets: &mut Vec<u8>) -> Result<Option<usize>, ReadFault>
    requires { octets.old.items ≡ [] }
    ensures header { IfOk result (λ found. IfSome found (IsHeaderRead octets.new.items)) }
    ensures read { IfOk result (ReadsHeader R.remaining source.old source.new octets.new.items) }
    ensures err { IfErr result (IsHeaderFault (R.remaining source.old) (R.remaining source.new)) }
{
    'octets: loop {
        let Some(octet) = read_octet(source)? else {
            return if octets.is_empty() {
                Ok(None)
            } else {
                Err(refused(Rule::Truncated))
            };
        };
        if octets.push(octet).is_err() {
            return Err(ReadFault::Fault(Fault::Memory));
        }
        match Header::begun(octets) {
            Ok(None) => {}
            Ok(Some(header)) => return Ok(Some(header.len + header.contents)),
            Err(rule) => return Err(refused(rule)),
        }
    }
}

/// For how many octets room is made, at least, before any of the contents was read.
const FIRST_ROOM: usize = 4096;

/// Makes room behind the octets of the buffer, for as many again, and no more than `len` in all.
fn make_room(octets: &mut Vec<u8>, len: usize) -> Result<(), AllocError>
    requires { length octets.old.items < len }
    ensures front { StartsWith octets.new.items octets.old.items }
    ensures room { OnOk result (length octets.old.items < length octets.new.items) }
    ensures within { OnOk result (length octets.new.items ≤ len) }
    ensures modest { OnOk result (length octets.new.items ≤ 2 * length octets.old.items + 4096) }
{
    let have = octets.len();
    let room = have.max(FIRST_ROOM).min(len - have);
    octets.resize(have + room, 0)
}

/// Reads once into the buffer, behind its first octets, and answers how many octets were read: none only at the end.
fn read_behind<R: Read>(
    source: &mut R,
    buffer: &mut [u8],
    filled: usize,
) -> Result<usize, ReadFault>
    requires { filled < length buffer.old }
    ensures front { take filled buffer.new ≡ take filled buffer.old }
    ensures fits { IfOk result (λ count. filled + count ≤ length buffer.new) }
    ensures read { IfOk result (Fills R.remaining source.old source.new filled buffer.new) }
    ensures end { IfOk result (λ count. count ≡ 0 → IsAtEnd (R.remaining source.new)) }
    ensures err { IfErr result (λ fault. fault ≡ ReadFault.Io) }
{
    match source.read(&mut buffer[filled..]) {
        Ok(count) => Ok(count),
        Err(_) => Err(ReadFault::Io),
    }
}

/// The same, with room made if there is none.
pub(crate) fn read_more<R: Read>(
    source: &mut R,
    octets: &mut Vec<u8>,
    filled: usize,
    len: usize,
) -> Result<usize, ReadFault>
    requires filled { filled ≤ length octets.old.items }
    requires wanted { filled < len }
    requires within { length octets.old.items ≤ len }
    ensures front { take filled octets.new.items ≡ take filled octets.old.items }
    ensures fits { IfOk result (λ count. filled + count ≤ length octets.new.items) }
    ensures within { OnOk result (length octets.new.items ≤ len) }
    ensures read { IfOk result (Fills R.remaining source.old source.new filled octets.new.items) }
    ensures end { IfOk result (λ count. count ≡ 0 → IsAtEnd (R.remaining source.new)) }
    ensures err { IfErr result (λ fault. IsNoRefusal fault) }
{
    if filled == octets.len() && make_room(octets, len).is_err() {
        return Err(ReadFault::Fault(Fault::Memory));
    }
    read_behind(source, octets.as_mut_slice(), filled)
}

/// Reads on behind a header, until the buffer holds the value.
fn read_contents<R: Read>(source: &mut R, octets: &mut Vec<u8>, len: usize) -> Result<(), ReadFault>
    requires { IsHeaderRead octets.old.items len }
    ensures front { OnOk result (StartsWith octets.new.items octets.old.items) }
    ensures whole { OnOk result (length octets.new.items ≡ len) }
    ensures read { OnOk result (ReadsMore R.remaining source.old source.new octets.old octets.new) }
    ensures err { IfErr result (IsContentsFault len R.remaining source.old source.new octets.old) }
{
    let mut filled = octets.len();
    while filled < len {
        match read_more(source, octets, filled, len)? {
            0 => return Err(refused(Rule::Truncated)),
            count => filled += count,
        }
    }
    Ok(())
}

/// Reads the next value of the source, and no octet behind it; `None` if the source ends before its first octet.
///
/// The header is read octet by octet, and refused as soon as the octet at fault was read. `Limit` is answered before any of the contents
/// is read, if the value has more than `limit` octets with its header. Other faults are those of `der::check`, with their place in the
/// value. `Io` is answered if the source answers an error, an interruption too; then, as after lack of memory, what was read is lost.
///
/// Room is made as octets come, for at most as many again. Time is linear in the octets read, plus that of the source.
pub fn read_one<R: Read>(
    alloc: Global,
    source: &mut R,
    limit: usize,
) -> Result<Option<Vec<u8>>, ReadFault>
    ensures value { IfOk result (λ found. IfSome found (λ it. IsValueWithin limit it.items)) }
    ensures taken { IfOk result (TakesOctets limit R.remaining source.old source.new) }
    ensures refused { IfErr result (IsRefusedBy limit R.remaining source.old source.new) }
{
    let mut octets = Vec::new(alloc);
    let Some(len) = read_header(source, &mut octets)? else {
        return Ok(None);
    };
    if len > limit {
        return Err(ReadFault::Limit);
    }
    read_contents(source, &mut octets, len)?;
    match check(&octets) {
        Ok(()) => Ok(Some(octets)),
        Err(fault) => Err(ReadFault::Fault(fault)),
    }
}

/// What a source has left, and the limit, leave `read_one` one answer, however the source is cut, and one place behind what was read. So a
/// value that the source begins with is answered, and nothing else is refused or past the limit.
pub fn stream_laws()
    ensures { OneAnswer }
{}
