//! What stands at a place, beside a serial number that is looked for.

ghost use Rattle.std.specs.Prelude.{◌≡◌};
ghost use Rattle.std.specs.Ordering.{nat_cmp};
ghost use Rattle.std.specs.Cmp.Lexicographic.{slice_cmp};
ghost use Rattle.store_rows.specs.Places.{beside_serial};

use std::cmp::Ordering;

/// What stands at a place, beside a serial number that is looked for.
#[derive(Clone, Copy)]
pub(crate) enum SerialAtPlace {
    Nothing,
    /// A serial number that comes before it.
    Below,
    /// It stands there, with this reason.
    Same(u8),
    Above,
}

/// What an entry is beside a serial number. Serial numbers are compared by their octets.
pub(crate) fn compare(serial: &[u8], reason: u8, looked_for: &[u8]) -> SerialAtPlace
    ensures { result ≡ beside_serial (slice_cmp nat_cmp serial.now looked_for.now) reason }
{
    match serial.cmp(looked_for) {
        Ordering::Less => SerialAtPlace::Below,
        Ordering::Equal => SerialAtPlace::Same(reason),
        Ordering::Greater => SerialAtPlace::Above,
    }
}
