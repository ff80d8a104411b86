//! `x509check_check`.

ghost use Rattle.std.specs.Prelude.{◌≡◌, ◌↔◌, ◌⊎◌};
ghost use Rattle.der.specs.Value.{Value};
ghost use Rattle.der.specs.Encoding.{Encodes};
ghost use Rattle.capi.specs.Answer.{TellsFault};

use crate::answer::Answer;

/// Whether the octets are the DER encoding of one value, as `der::check` says, or the first fault.
#[unsafe(no_mangle)]
pub extern "C" fn x509check_check(octets: &[u8]) -> Answer
    ensures accepts { (result.fault ≡ 0) ↔ ((value : Value) × Encodes octets.now value) }
    ensures refuses { (result.fault ≡ 0) ⊎ TellsFault octets.now result }
    ensures nowhere { result.fault ≡ 0 → result.offset ≡ 0 }
{
    match der::check(octets) {
        Ok(()) => Answer {
            fault: 0,
            offset: 0,
        },
        Err(fault) => Answer {
            fault: u32::from(fault.number()),
            offset: fault.place().unwrap_or(0),
        },
    }
}
