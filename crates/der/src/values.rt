//! Values that stand one behind the other, with those inside them: whether octets are such, or the first fault.

ghost use Rattle.std.specs.Prelude.{◌≡◌, ◌+◌, ◌≤◌, length, IfSome, IfNone, IfOk, IfErr, OnOk};
ghost use Rattle.der.specs.Front.{AreEncodings, BeginsWith, inside_of, IsBroken, BreaksFirstWherever, SpeaksForWhole, octets_behind};
ghost use Rattle.der.specs.FirstFault.{BreaksFirst, FirstFaultAmong};

use crate::contents::is_contents;
use crate::fault::Rule;
use crate::header::Header;
use crate::identifier::is_constructed_form;

/// How many values may be open, without the outermost, round one at depth 32.
const MOST_OPEN: usize = 30;

/// A value at the front of a text, and what stands behind it.
#[derive(Clone, Copy)]
pub(crate) struct Front<'a> {
    pub(crate) constructed: bool,
    pub(crate) contents: &'a [u8],
    pub(crate) others: &'a [u8],
}

/// The value at the front of a text that goes to the end of the enclosing value, if its header breaks no rule, nor its contents if it is
/// primitive. Values inside are not looked at.
#[inline(always)]
pub(crate) fn front_of(text: &[u8]) -> Option<Front<'_>>
    ensures some { IfSome result (λ f. BeginsWith text.now (inside_of f.constructed f.contents.now)
        f.others.now) }
    ensures none { IfNone result (IsBroken text.now) }
{
    let Ok(header) = Header::read(text) else {
        return None;
    };
    let (_, from_contents) = text.split_at(header.len);
    let (contents, others) = from_contents.split_at(header.contents);
    let constructed = is_constructed_form(header.identifier);
    if constructed || is_contents(header.identifier, contents) {
        Some(Front {
            constructed,
            contents,
            others,
        })
    } else {
        None
    }
}

/// The first rule that the value at the front of such a text breaks. `front_of` looks at most values and does not keep the rule.
#[inline(never)]
pub(crate) fn broken_rule(text: &[u8]) -> Rule
    requires { IsBroken text.now }
    ensures { BreaksFirstWherever text.now result }
{
    match Header::read(text) {
        Ok(_) => Rule::Content,
        Err(rule) => rule,
    }
}

/// Passes over values with nothing inside them, at depth 2, and answers what is left from the first other one on.
fn pass_flat(text: &[u8]) -> Result<&[u8], (Rule, usize)>
    ensures ok { IfOk result (λ rest. SpeaksForWhole text.now 2 rest.now 0
        (AreEncodings 2 text.now)) }
    ensures err { IfErr result (λ broken. FirstFaultAmong 2 text.now broken.0 broken.1) }
{
    let mut rest = text;
    while !rest.is_empty() {
        let Some(front) = front_of(rest) else {
            return Err((broken_rule(rest), text.len() - rest.len()));
        };
        if front.constructed && !front.contents.is_empty() {
            return Ok(rest);
        }
        rest = front.others;
    }
    Ok(rest)
}

/// The offset in the whole text of what is left, if this stands before the texts that wait, of which the last is the next.
fn offset_of(whole: &[u8], rest: &[u8], waiting: &[&[u8]]) -> usize
    requires { length rest.now + octets_behind waiting.now (length waiting.now) ≤ length whole.now }
    ensures { result + (length rest.now + octets_behind waiting.now (length waiting.now))
        ≡ length whole.now }
{
    let mut at = whole.len() - rest.len();
    for text in waiting {
        at -= text.len();
    }
    at
}

/// The first rule that a value breaks at depth 33.
fn broken_too_deep(text: &[u8]) -> Rule
    ensures { BreaksFirst result 33 text.now }
{
    match Header::read(text) {
        Ok(_) => Rule::TooDeep,
        Err(rule) => rule,
    }
}

/// The values at depth 2 that fill the text: the first fault among them and those inside.
fn check_nested(text: &[u8]) -> Result<(), (Rule, usize)>
    ensures ok { OnOk result (AreEncodings 2 text.now) }
    ensures err { IfErr result (λ broken. FirstFaultAmong 2 text.now broken.0 broken.1) }
{
    // what stands behind the values that are open, the outermost first
    let mut behind: [&[u8]; MOST_OPEN + 1] = [&[]; MOST_OPEN + 1];
    let mut open = 0;
    let mut rest = text;
    loop {
        if rest.is_empty() {
            if open == 0 {
                return Ok(());
            }
            open -= 1;
            rest = behind[open];
            continue;
        }
        let Some(front) = front_of(rest) else {
            return Err((broken_rule(rest), offset_of(text, rest, &behind[..open])));
        };
        if front.constructed && !front.contents.is_empty() {
            behind[open] = front.others;
            open += 1;
            rest = front.contents;
            if open > MOST_OPEN {
                return Err((
                    broken_too_deep(rest),
                    offset_of(text, rest, &behind[..open]),
                ));
            }
        } else {
            rest = front.others;
        }
    }
}

/// The same; most texts have no value inside another up to some place, and need no stack up to there.
#[inline(always)]
pub(crate) fn check_values(text: &[u8]) -> Result<(), (Rule, usize)>
    ensures ok { OnOk result (AreEncodings 2 text.now) }
    ensures err { IfErr result (λ broken. FirstFaultAmong 2 text.now broken.0 broken.1) }
{
    let rest = match pass_flat(text) {
        Ok(rest) => rest,
        Err(broken) => return Err(broken),
    };
    if rest.is_empty() {
        return Ok(());
    }
    match check_nested(rest) {
        Ok(()) => Ok(()),
        Err((rule, at)) => Err((rule, text.len() - rest.len() + at)),
    }
}
