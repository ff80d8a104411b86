//! One line, and its answer.
ghost use Rattle.std.specs.Prelude.{◌≡◌, OnErr, OnOk};
ghost use Rattle.std.specs.Io.KnownBytes.{Appends};
ghost use Rattle.cli_answers.specs.Fronts.{TakesFront};
ghost use Rattle.cli_steps.specs.Held.{holding_of};
ghost use Rattle.cli_steps.specs.AnswerText.{answer_text};
ghost use Rattle.cli_steps.specs.Keeping.{Keeps};
ghost use Rattle.cli_steps.specs.Ways.{MovesParty};
ghost use Rattle.cli_steps.specs.Serving.{IsFollowedBy, IsAnswerWithin, WritesAnswer, is_end, is_refusal};

use crate::answer::SessionAnswer;
use crate::ending::End;
use crate::keeper::Keeper;
use crate::party::Party;
use crate::stepping::step;
use cli_answers::write_front;
use cli_failures::{Failure, Source, StoreRefusal};
use cli_requests::{RequestFault, request_of};
use std::alloc::Global;
use std::io;
use std::io::Write;

// Whether the session ends with the answer.
fn is_end(answer: &SessionAnswer<'_>) -> bool
    ensures { result ≡ is_end answer.now }
{
    match answer {
        SessionAnswer::Ends => true,
        _ => false,
    }
}

// Whether the keeper refused.
fn is_refusal(answer: &SessionAnswer<'_>) -> bool
    ensures { result ≡ is_refusal answer.now }
{
    match answer {
        SessionAnswer::Failed(
            Failure::StoreFailed {
                refusal: StoreRefusal::Store,
            },
        ) => true,
        _ => false,
    }
}

// Does what the line asks for, which stands there without its line feed, and answers it.
fn answer_line<'a, K: Keeper, S: Source>(
    party: &mut Party<K>,
    source: &S,
    alloc: Global,
    line: &'a [u8],
) -> SessionAnswer<'a>
    ensures clean { K.is_clean party.new.keeper → K.is_clean party.old.keeper }
    ensures steps { MovesParty K.is_clean K.keeps party.old party.new (λ old new.
        IsAnswerWithin (holding_of (S.holds source.now)) line.entry.now old new result) }
{
    match request_of(alloc, line) {
        Ok(request) => step(party, source, alloc, request),
        Err(RequestFault::Malformed) => SessionAnswer::BadLine,
        Err(RequestFault::Memory) => SessionAnswer::Failed(Failure::NoMemory),
    }
}

/// Writes the answer, which is made in `text` first, and what the writer may keep back. If the writer fails, or there is no memory for the
/// text, it has taken a front of the answer, which may be nothing.
pub(crate) fn write_answer<W: Write>(
    answer: &SessionAnswer<'_>,
    text: &mut Vec<u8>,
    out: &mut W,
) -> io::Result<()>
    ensures written { OnOk result (Appends (W.contents out.old) (W.contents out.new)
        (answer_text answer.now)) }
    ensures front { OnErr result (TakesFront (W.contents out.old) (W.contents out.new)
        (answer_text answer.now)) }
{
    text.clear();
    answer.tell(text)?;
    write_front(text.as_slice(), out)?;
    out.flush()
}

// How the session ends behind the answer, if it does.
fn end_behind<K: Keeper>(keeper: &mut K, answer: &SessionAnswer<'_>) -> Option<End>
    ensures clean { K.is_clean keeper.new → K.is_clean keeper.old }
    ensures keeps { K.is_clean keeper.new → Keeps (K.keeps keeper.old) (K.keeps keeper.new) }
    ensures follows { IsFollowedBy answer.now result }
{
    if is_end(answer) {
        return Some(End::Quit);
    }
    if is_refusal(answer) && !keeper.may_answer() {
        return Some(End::Shut);
    }
    None
}

/// Answers a line that was read, and tells how the session ends behind it, if it does.
pub(crate) fn answer_read<K: Keeper, S: Source, W: Write>(
    party: &mut Party<K>,
    source: &S,
    alloc: Global,
    line: &[u8],
    text: &mut Vec<u8>,
    out: &mut W,
) -> Option<End>
    ensures clean { K.is_clean party.new.keeper → K.is_clean party.old.keeper }
    ensures says { WritesAnswer (W.contents out.old) (W.contents out.new)
        (MovesParty K.is_clean K.keeps party.old party.new)
        (IsAnswerWithin (holding_of (S.holds source.now)) line.now) result }
{
    let answer = answer_line(party, source, alloc, line);
    if write_answer(&answer, text, out).is_err() {
        return Some(End::Unwritable);
    }
    end_behind(&mut party.keeper, &answer)
}
