//! The contents of INTEGERs that count (X.690, 8.3).

ghost use Rattle.std.specs.Prelude.{◌≡◌};
ghost use Rattle.cert.specs.BasicConstraints.{is_negative, saturated};

/// Whether the contents of an INTEGER are those of a negative number.
pub fn is_negative_number(contents: &[u8]) -> bool
    ensures { result ≡ is_negative contents.now }
{
    match contents {
        [] => false,
        [first, ..] => *first >= 128,
    }
}

/// The number that the octets spell in binary, or the greatest `u32` if it is greater.
pub fn saturated_number(octets: &[u8]) -> u32
    ensures { result ≡ saturated octets.now }
{
    let mut number: u32 = 0;
    for octet in octets {
        number = number.saturating_mul(256).saturating_add(u32::from(*octet));
    }
    number
}
