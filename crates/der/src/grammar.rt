//! Whether octets encode one value.

ghost use Rattle.std.specs.Prelude.{◌↔◌, IfOk, IfErr, IsOk};
ghost use Rattle.der.specs.Value.{Value};
ghost use Rattle.der.specs.Encoding.{Encodes};
ghost use Rattle.der.specs.FirstFault.{FirstFaultIn, IsFirstFault, IsPlacedWithin};
ghost use Rattle.der.specs.Header.{BeginsWithValue};

use crate::fault::{Fault, Rule};
use crate::values::{broken_rule, check_values, front_of};

/// The greatest depth that is served; the outermost value has depth 1.
pub const MAX_DEPTH: u32 = 32;

/// The outermost value at the front of a text: how many octets it has, or the first rule that is broken in it, and where.
#[inline(always)]
fn check_value(text: &[u8]) -> Result<usize, (Rule, usize)>
    ensures ok { IfOk result (λ len. BeginsWithValue 1 text.now len) }
    ensures err { IfErr result (λ broken. FirstFaultIn 1 text.now broken.0 broken.1) }
{
    let Some(front) = front_of(text) else {
        return Err((broken_rule(text), 0));
    };
    let end = text.len() - front.others.len();
    if !front.constructed {
        return Ok(end);
    }
    match check_values(front.contents) {
        Ok(()) => Ok(end),
        Err((rule, at)) => Err((rule, end - front.contents.len() + at)),
    }
}

/// Whether the octets are the DER encoding of one value, all of them (X.690, 10); if not, the first rule that is broken and the place of
/// the value that breaks it. Values are looked at in the order of their first octets, at one value the rules in the order of their
/// numbers. Never `Fault::Memory`.
///
/// Time is linear in the octets, each of which is looked at once, up to the first fault. No memory is taken, and half a kilobyte of the
/// stack.
pub fn check(octets: &[u8]) -> Result<(), Fault>
    ensures accepts { IsOk result ↔ ((value : Value) × Encodes octets.now value) }
    ensures refuses { IfErr result (λ fault. IsFirstFault octets.now fault) }
    ensures within { IfErr result (λ fault. IsPlacedWithin octets.now fault) }
{
    match check_value(octets) {
        Ok(len) => {
            if len < octets.len() {
                Err(Fault::Refused(Rule::Trailing, len))
            } else {
                Ok(())
            }
        }
        Err((rule, at)) => Err(Fault::Refused(rule, at)),
    }
}
