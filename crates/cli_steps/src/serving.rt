//! The loop of a session.
ghost use Rattle.std.specs.Prelude.{◌≡◌, ◌≤◌, ◌^◌, vec_capacity};
ghost use Rattle.cli_steps.specs.Serving.{SaysLong, ServesPartyLine, SessionEnds};

use crate::answer::SessionAnswer;
use crate::answering::{answer_read, write_answer};
use crate::ending::End;
use crate::keeper::Keeper;
use crate::party::Party;
use cli_answers::{LINE_MOST, LineRead, read_line};
use cli_failures::Source;
use std::alloc::Global;
use std::io::{Read, Write};

// Answers a line that is too long.
fn refuse_line<W: Write>(text: &mut Vec<u8>, out: &mut W) -> Option<End>
    ensures { SaysLong (W.contents out.old) (W.contents out.new) result }
{
    match write_answer(&SessionAnswer::LongLine, text, out) {
        Ok(()) => None,
        Err(_) => Some(End::Unwritable),
    }
}

/// Reads one line and answers it, and tells how the session ends behind it, if it does. When it returns, the answer has been written, and
/// what it tells has been done: a statement that was answered as delivered is in the store, and a crash from here on leaves it
/// (`crash_law`). A line is read into `line`, which has room for the longest, 2^20 octets, and its answer is made in `text`; both may be
/// used again.
pub fn serve_line<R: Read, K: Keeper, S: Source, W: Write>(
    input: &mut R,
    party: &mut Party<K>,
    source: &S,
    alloc: Global,
    line: &mut Vec<u8>,
    text: &mut Vec<u8>,
    out: &mut W,
) -> Option<End>
    requires room { 2 ^ 20 ≤ vec_capacity line.old }
    ensures room { vec_capacity line.old ≤ vec_capacity line.new }
    ensures clean { K.is_clean party.new.keeper → K.is_clean party.old.keeper }
    ensures serves { ServesPartyLine (S.holds source.now) R.remaining input.old input.new
        W.contents out.old out.new K.is_clean K.keeps party.old party.new result }
{
    match read_line(input, line) {
        Ok(LineRead::Line) => answer_read(party, source, alloc, line.as_slice(), text, out),
        Ok(LineRead::TooLong) => refuse_line(text, out),
        Ok(LineRead::End) => Some(End::Finished),
        Err(_) => Some(End::Unreadable),
    }
}

// The same of line after line.
fn serve_lines<R: Read, K: Keeper, S: Source, W: Write>(
    input: &mut R,
    party: &mut Party<K>,
    source: &S,
    alloc: Global,
    line: &mut Vec<u8>,
    text: &mut Vec<u8>,
    out: &mut W,
) -> End
    requires room { 2 ^ 20 ≤ vec_capacity line.old }
    ensures clean { K.is_clean party.new.keeper → K.is_clean party.old.keeper }
    ensures ended { SessionEnds (S.holds source.now) R.remaining input.old input.new
        W.contents out.old out.new K.is_clean K.keeps party.old party.new result }
{
    for _ in 0..u64::MAX {
        match serve_line(input, party, source, alloc, line, text, out) {
            Some(end) => return end,
            None => {}
        }
    }
    End::Unreadable
}

/// Reads lines and answers each before the next is read, until a line asks for the end or the source is at its end; or the keeper's
/// connection was shut, an answer could not be written, or the source could not be read. Memory is 2^20 octets for a line and as many for an
/// answer, and what the answer to one line takes; and the fingerprints that come.
pub fn serve<R: Read, K: Keeper, S: Source, W: Write>(
    input: &mut R,
    party: &mut Party<K>,
    source: &S,
    alloc: Global,
    out: &mut W,
) -> End
    ensures clean { K.is_clean party.new.keeper → K.is_clean party.old.keeper }
    ensures ended { SessionEnds (S.holds source.now) R.remaining input.old input.new
        W.contents out.old out.new K.is_clean K.keeps party.old party.new result }
{
    match (
        Vec::with_capacity(alloc, LINE_MOST),
        Vec::with_capacity(alloc, LINE_MOST),
    ) {
        (Ok(line), Ok(text)) => {
            let (mut line, mut text) = (line, text);
            serve_lines(input, party, source, alloc, &mut line, &mut text, out)
        }
        _ => End::NoMemory,
    }
}
