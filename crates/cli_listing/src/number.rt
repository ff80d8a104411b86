//! Numbers of lists as text.

ghost use Rattle.std.specs.Prelude.{◌≡◌, ◌∷◌, ◌++◌, length};
ghost use Rattle.hex.specs.Hex.{encode_lower};
ghost use Rattle.asn.specs.Integer.{binary_value};
ghost use Rattle.asn.specs.NumberLaws.{number_octets};
ghost use Rattle.cli_printing.specs.Written.{Writes};
ghost use Rattle.cli_listing.specs.NumberText.{shortest, number_text};

use asn::Number20;
use cli_printing::write_hex;
use std::io;
use std::io::Write;

/// Without the octets of zeros at the front that an INTEGER does not need.
fn shortest(octets: &[u8]) -> &[u8]
    ensures { result.now ≡ shortest octets.now }
{
    let mut rest = octets;
    while let [0, others @ ..] = rest {
        let [next, ..] = others else { break };
        if *next >= 128 {
            break;
        }
        rest = others;
    }
    rest
}

/// Twenty octets spell a number in just one way.
fn is_spelled(octets: &[u8])
    requires { length octets.now ≡ 20 }
    ensures { octets.now ≡ number_octets 20 (binary_value octets.now) }
{
    let _count = octets.len();
}

/// The octets of a number behind one of zeros.
fn with_zero(number: Number20) -> [u8; 21]
    ensures { result ≡ 0 ∷ number_octets 20 number }
{
    let spelled = number.to_octets();
    is_spelled(&spelled);
    let mut octets = [0; 21];
    octets[1..].copy_from_slice(&spelled);
    octets
}

/// Writes the contents octets of the shortest INTEGER behind a word, in hexadecimal.
pub(crate) fn write_number<W: Write>(word: &str, number: Number20, writer: &mut W) -> io::Result<()>
    ensures { Writes W.contents writer.old writer.new result (word.now ++ number_text number) }
{
    write_hex_behind(word, shortest(&with_zero(number)), writer)
}

/// Writes octets behind a word, in hexadecimal.
pub(crate) fn write_hex_behind<W: Write>(
    word: &str,
    octets: &[u8],
    writer: &mut W,
) -> io::Result<()>
    ensures { Writes W.contents writer.old writer.new result (word.now ++ encode_lower octets.now) }
{
    writer.write_all(word.as_bytes())?;
    write_hex(octets, writer)
}
