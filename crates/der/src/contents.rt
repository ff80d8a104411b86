//! What the contents of a primitive value have to be.

ghost use Rattle.std.specs.Prelude.{◌≡◌, ◌↔◌, IsTrue};
ghost use Rattle.der.specs.Contents.{IsBoolean, IsInteger, IsBitString, AreArcs, IsObjectIdentifier, IsContents};

// BOOLEAN (X.690, 8.2 and 11.1)
fn is_boolean(contents: &[u8]) -> bool
    ensures { IsTrue result ↔ IsBoolean contents.now }
{
    contents.len() == 1 && (contents[0] == 0 || contents[0] == 255)
}

// INTEGER and ENUMERATED (8.3, 8.4)
fn is_integer(contents: &[u8]) -> bool
    ensures { IsTrue result ↔ IsInteger contents.now }
{
    match contents {
        [] => false,
        [_] => true,
        [0, second, ..] => *second >= 128,
        [255, second, ..] => *second < 128,
        _ => true,
    }
}

// BIT STRING (8.6, 11.2)
fn is_bit_string(contents: &[u8]) -> bool
    ensures { IsTrue result ↔ IsBitString contents.now }
{
    match contents {
        [] => false,
        [unused] => *unused == 0,
        [unused, bits @ ..] => *unused < 8 && bits[bits.len() - 1] % (1u8 << *unused) == 0,
    }
}

/// Whether no arc begins with 128.
fn are_arcs(contents: &[u8]) -> bool
    ensures { IsTrue result ↔ AreArcs contents.now }
{
    // an arc begins behind an octet below 128, and at the front
    let mut before = 0;
    for octet in contents {
        if *octet == 128 && before < 128 {
            return false;
        }
        before = *octet;
    }
    true
}

// OBJECT IDENTIFIER (8.19); most have no octet 128
fn is_object_identifier(contents: &[u8]) -> bool
    ensures { IsTrue result ↔ IsObjectIdentifier contents.now }
{
    match contents {
        [.., last] if *last < 128 => !contents.contains(&128) || are_arcs(contents),
        _ => false,
    }
}

/// Whether a primitive value with this identifier octet may have these contents.
#[inline(always)]
pub fn is_contents(identifier: u8, contents: &[u8]) -> bool
    ensures { IsTrue result ↔ IsContents identifier contents.now }
{
    match identifier {
        1 => is_boolean(contents),
        2 | 10 => is_integer(contents),
        3 => is_bit_string(contents),
        5 => contents.is_empty(),
        6 => is_object_identifier(contents),
        _ => true,
    }
}
