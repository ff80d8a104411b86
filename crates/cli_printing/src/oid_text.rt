//! OBJECT IDENTIFIERs in dotted decimal (X.690, 8.19).
ghost use Rattle.std.specs.Prelude.{◌≡◌, ◌≤◌, ◌<◌, ◌∷◌, ◌++◌, [], ℕ, length, map, IfSome, MatchOption, false};
ghost use Rattle.std.specs.List.{flat_map, list_any};
ghost use Rattle.cli_printing.specs.OidText.{dotted, dotted_number, first_two, is_long, octets_number, number_size, numbers_in, oid_text};
ghost use Rattle.cli_printing.specs.Written.{Writes};

use crate::text::write_hex;
use std::io;
use std::io::Write;

// The most octets of a number that is written in decimal: it has 63 bits at most.
const MOST_OCTETS: usize = 9;

// How many octets the first number has: the last of them alone is below 128.
fn number_len(contents: &[u8]) -> usize
    ensures { result ≡ number_size contents.now }
{
    let mut len = 0;
    for octet in contents {
        len += 1;
        if *octet < 128 {
            return len;
        }
    }
    len
}

// Takes the octets of the next number.
fn next_number<'a>(contents: &mut &'a [u8]) -> Option<&'a [u8]>
    ensures splits { MatchOption result (numbers_in contents.old.now ≡ [])
        (λ number. numbers_in contents.old.now ≡ number.now ∷ numbers_in contents.new.now) }
    ensures shorter { IfSome result (λ _. length contents.new.now < length contents.old.now) }
{
    let text = *contents;
    if text.is_empty() {
        return None;
    }
    let (number, others) = text.split_at(number_len(text));
    *contents = others;
    Some(number)
}

fn has_long_number(contents: &[u8]) -> bool
    ensures { result ≡ list_any is_long (numbers_in contents.now) }
{
    let mut rest = contents;
    while let Some(number) = next_number(&mut rest) {
        if number.len() > MOST_OCTETS {
            return true;
        }
    }
    false
}

// The number that the octets spell, seven bits each.
fn number_of(octets: &[u8]) -> u64
    requires { length octets.now ≤ MOST_OCTETS }
    ensures { result ≡ octets_number octets.now }
{
    let mut number = 0u64;
    for octet in octets {
        number = number * 128 + u64::from(*octet % 128);
    }
    number
}

// The first number is that of two.
fn write_first_two<W: Write>(number: u64, writer: &mut W) -> io::Result<()>
    ensures { Writes W.contents writer.old writer.new result (first_two number) }
{
    if number < 40 {
        write!(writer, "0.{number}")
    } else if number < 80 {
        write!(writer, "1.{}", number - 40)
    } else {
        write!(writer, "2.{}", number - 80)
    }
}

fn write_numbers<W: Write>(contents: &[u8], writer: &mut W) -> io::Result<()>
    requires { list_any is_long (numbers_in contents.now) ≡ false }
    ensures { Writes W.contents writer.old writer.new result (dotted (numbers_in contents.now)) }
{
    let mut rest = contents;
    let Some(first) = next_number(&mut rest) else {
        return Ok(());
    };
    write_first_two(number_of(first), writer)?;
    while let Some(number) = next_number(&mut rest) {
        write!(writer, ".{}", number_of(number))?;
    }
    Ok(())
}

/// Writes the OBJECT IDENTIFIER of these contents in dotted decimal; if one of its numbers has more than nine octets, a `#`
/// and the contents in hexadecimal.
#[tactic(auto, unfolding(crate::specs::OidText::oid_text))]
pub fn write_oid<W: Write>(contents: &[u8], writer: &mut W) -> io::Result<()>
    ensures { Writes W.contents writer.old writer.new result (oid_text contents.now) }
{
    if has_long_number(contents) {
        writer.write_all(b"#")?;
        return write_hex(contents, writer);
    }
    write_numbers(contents, writer)
}
