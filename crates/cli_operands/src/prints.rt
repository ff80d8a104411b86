//! The fingerprints of good signatures.
ghost use Rattle.std.specs.Prelude.{IfErr, IfOk};
ghost use Rattle.cli_operands.specs.VerdictLines.{NamePrints, text_lines};
ghost use Rattle.statements_facts.specs.declared.profile.Profile.TheVariants.{Stated};
ghost use Rattle.cli_failures.specs.Failures.{IsJust};
ghost use Rattle.cli_operands.specs.Asked.{HoldsFingerprints, IsFailureOnFingerprints};

use crate::{FingerprintsFault, fingerprints_of};
use cli_failures::{Extent, Failure, Source};
use std::alloc::Global;

/// The fingerprints that the octets of the file name.
fn prints_in<'a>(alloc: Global, file: &'a str, octets: &[u8]) -> Result<Vec<[u8; 32]>, Failure<'a>>
    ensures reads { IfOk result (λ prints. NamePrints (text_lines octets.now) prints.items) }
    ensures fails { IfErr result
        (IsFailureOnFingerprints (IsJust Stated octets.now) file.entry.now) }
{
    match fingerprints_of(alloc, octets) {
        Ok(prints) => Ok(prints),
        Err(FingerprintsFault::Line(line)) => Err(Failure::BadLine { file, line }),
        Err(FingerprintsFault::Memory) => Err(Failure::NoMemory),
    }
}

/// The fingerprints that the file of verdicts names, in order.
pub fn read_fingerprints<'a, S: Source>(
    source: &S,
    alloc: Global,
    file: &'a str,
) -> Result<Vec<[u8; 32]>, Failure<'a>>
    ensures reads { IfOk result (λ prints.
        HoldsFingerprints (S.holds source.now) file.entry.now prints.items) }
    ensures fails { IfErr result (IsFailureOnFingerprints (S.holds source.now) file.entry.now) }
{
    let octets = source.octets_of(file, Extent::Lines)?;
    prints_in(alloc, file, octets.as_slice())
}
