//! The identifier and length octets before the contents.

ghost use Rattle.std.specs.Prelude.{◌<◌, IfOk, IfErr, IfSome, IfNone};
ghost use Rattle.der.specs.Header.{IsHeaderOf, SaysHeader, HasServedLength, GoesOn, HasHeader, IsBrokenAhead, BreaksHeaderRule};

use crate::fault::Rule;
use crate::identifier::is_refused_identifier;
use crate::length::{known_length_of, length_of};

/// The header of a value.
#[derive(Clone, Copy, Debug, PartialEq, Eq)]
pub struct Header {
    pub identifier: u8,
    /// How many octets stand before the contents.
    pub len: usize,
    /// How many octets the contents have.
    pub contents: usize,
}

impl Header {
    /// The header at the front of a text that goes to the end of the enclosing value, or of the input (X.690, 8.1.2, 8.1.3); else the
    /// first rule that it breaks.
    #[inline(always)]
    pub fn read(text: &[u8]) -> Result<Header, Rule>
        ensures ok { IfOk result (λ header. IsHeaderOf text.now header) }
        ensures err { IfErr result (BreaksHeaderRule text.now) }
    {
        if text.is_empty() {
            return Err(Rule::Truncated);
        }
        let identifier = text[0];
        if is_refused_identifier(identifier) {
            return Err(Rule::TagForm);
        }
        if text.len() < 2 {
            return Err(Rule::Truncated);
        }
        let (len, contents) = length_of(text)?;
        if text.len() - len < contents {
            return Err(Rule::Truncated);
        }
        Ok(Header {
            identifier,
            len,
            contents,
        })
    }

    /// The header of a value that begins with these octets, whatever follows; `None` if the header goes on behind them; else the first
    /// rule that it breaks. An identifier octet, or a first length octet, that breaks a rule is refused at once.
    pub fn begun(front: &[u8]) -> Result<Option<Header>, Rule>
        ensures whole { IfOk result (λ found. IfSome found (λ header. HasHeader front.now header)) }
        ensures goes_on { IfOk result (λ found. IfNone found (GoesOn front.now)) }
        ensures err { IfErr result (λ rule. IsBrokenAhead front.now rule) }
    {
        if front.is_empty() {
            return Ok(None);
        }
        let identifier = front[0];
        if is_refused_identifier(identifier) {
            return Err(Rule::TagForm);
        }
        if front.len() < 2 {
            return Ok(None);
        }
        match length_of(front) {
            Ok((len, contents)) => Ok(Some(Header {
                identifier,
                len,
                contents,
            })),
            Err(rule) if rule == Rule::Truncated => Ok(None),
            Err(rule) => Err(rule),
        }
    }

    /// The header at the front of a text that is known to begin with the encoding of a value: no rule is checked again.
    #[inline(always)]
    pub fn known(text: &[u8]) -> Header
        requires { HasServedLength text.now }
        ensures { SaysHeader text.now result }
    {
        let (len, contents) = known_length_of(text);
        Header {
            identifier: text[0],
            len,
            contents,
        }
    }
}
