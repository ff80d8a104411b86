//! Length octets (X.690, 8.1.3 and 10.1).

ghost use Rattle.std.specs.Prelude.{◌≡◌, ◌<◌, ◌≤◌, length, IfOk, IfErr};
ghost use Rattle.der.specs.Header.{IsLengthOf, BreaksLengthRule, EndsInHeader, HasServedLength};
ghost use Rattle.der.specs.Length.{header_len, contents_len};

use crate::fault::Rule;

/// How many octets the header of the text has, and how many its contents, by the length octets behind the identifier.
#[inline(always)]
pub(crate) fn length_of(text: &[u8]) -> Result<(usize, usize), Rule>
    requires { 2 ≤ length text.now }
    ensures ok { IfOk result (λ found. IsLengthOf text.now found.0 found.1) }
    ensures err { IfErr result (BreaksLengthRule text.now) }
    ensures short { IfErr result (EndsInHeader text.now) }
{
    let first = text[1];
    if first < 128 {
        return Ok((2, first as usize));
    }
    if first == 128 || first == 255 {
        return Err(Rule::LengthForm);
    }
    let count = (first - 128) as usize;
    if text.len() < 2 + count {
        return Err(Rule::Truncated);
    }
    let high = text[2] as usize;
    if high == 0 || (count == 1 && high < 128) {
        return Err(Rule::LengthForm);
    }
    match count {
        1 => Ok((3, high)),
        2 => Ok((4, high * 256 + text[3] as usize)),
        3 => Ok((5, high * 65536 + text[3] as usize * 256 + text[4] as usize)),
        4 if high < 16 => Ok((
            6,
            high * 16777216 + text[3] as usize * 65536 + text[4] as usize * 256 + text[5] as usize,
        )),
        _ => Err(Rule::TooLong),
    }
}

/// The same of length octets that are known to be served.
#[inline(always)]
pub(crate) fn known_length_of(text: &[u8]) -> (usize, usize)
    requires { HasServedLength text.now }
    ensures len { result.0 ≡ header_len text.now }
    ensures contents { result.1 ≡ contents_len text.now }
{
    let first = text[1];
    if first < 128 {
        return (2, first as usize);
    }
    let high = text[2] as usize;
    match first {
        129 => (3, high),
        130 => (4, high * 256 + text[3] as usize),
        131 => (5, high * 65536 + text[3] as usize * 256 + text[4] as usize),
        _ => (
            6,
            high * 16777216 + text[3] as usize * 65536 + text[4] as usize * 256 + text[5] as usize,
        ),
    }
}
