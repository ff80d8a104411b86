//! Files of verdicts.
ghost use Rattle.std.specs.Prelude.{◌≡◌, IfErr, IfOk};
ghost use Rattle.cli_operands.specs.VerdictLines.{IsRefusedForLine, NamePrints, is_remark, text_lines, print_on_line};

use std::alloc::{AllocFailed, Global};
use thiserror::Error;

/// Why a file of verdicts was refused.
#[derive(Clone, Copy, Debug, PartialEq, Eq, Error)]
pub enum FingerprintsFault {
    /// The line of this number, counted from 1, is the first on which something stands that is no fingerprint.
    #[error("line {0} is bad")]
    Line(usize),
    #[error("no memory")]
    Memory,
}

impl<T: Drop> From<AllocFailed<T>> for FingerprintsFault {
    ghost use Rattle.cli_operands.specs.declared.verdict_lines.FingerprintsFault.TheVariants.{Memory};

    ghost from_gives = { λ _ fault. fault ≡ Memory };

    fn from(_: AllocFailed<T>) -> FingerprintsFault {
        FingerprintsFault::Memory
    }
}

const DIGITS: usize = 64;

// Whether this may stand behind the digits: nothing, or a space and any text that a carriage return does not end.
fn is_remark(behind: &[u8]) -> bool
    ensures { result ≡ is_remark behind.now }
{
    behind.is_empty() || (behind[0] == b' ' && behind[behind.len() - 1] != b'\r')
}

// The fingerprint that the line names.
fn print_in(line: &[u8]) -> Option<[u8; 32]>
    ensures { result ≡ print_on_line line.now }
{
    if line.len() < DIGITS {
        return None;
    }
    let (digits, behind) = line.split_at(DIGITS);
    if !is_remark(behind) {
        return None;
    }
    let mut print = [0; 32];
    match hex::decode_to_slice(digits, &mut print) {
        Ok(()) => Some(print),
        Err(_) => None,
    }
}

/// The fingerprints that the octets name, one a line: 64 hexadecimal digits of either case, and then nothing, or a space and any
/// text. Empty lines are passed over; a line that a carriage return ends is bad.
pub fn fingerprints_of(alloc: Global, octets: &[u8]) -> Result<Vec<[u8; 32]>, FingerprintsFault>
    ensures named { IfOk result (λ prints. NamePrints (text_lines octets.now) prints.items) }
    ensures refused { IfErr result (IsRefusedForLine octets.now) }
{
    let mut prints = Vec::new(alloc);
    let mut number = 0;
    for line in octets.split(|octet| *octet == b'\n') {
        number += 1;
        if line.is_empty() {
            continue;
        }
        let Some(print) = print_in(line) else {
            return Err(FingerprintsFault::Line(number));
        };
        prints.push(print)?;
    }
    Ok(prints)
}
