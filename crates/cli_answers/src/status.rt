//! Exit statuses.
ghost use Rattle.std.specs.Prelude.{◌≡◌};
ghost use Rattle.cli_answers.specs.Status.{comparison_status, verdict_status};

use relying_agreement::{Comparison, Verdict};

/// What was asked for is done, or the path is valid.
pub const DONE: u8 = 0;

/// The path is invalid.
pub const INVALID: u8 = 1;

/// A certificate of the path is revoked.
pub const REVOKED: u8 = 2;

/// No current statement speaks of a certificate of the path.
pub const UNKNOWN: u8 = 3;

/// The input is refused.
pub const REFUSED: u8 = 4;

/// The words are mistaken.
pub const MISTAKEN: u8 = 5;

/// A file, a store or a writer failed, or there is no memory.
pub const FAILED: u8 = 6;

/// Two verdicts differ.
pub const DIFFERENT: u8 = 7;

/// The exit status that says a verdict: 0 for a valid path, 1, 2 and 3 for one that is invalid, revoked and unknown.
pub fn verdict_status(verdict: Verdict) -> u8
    ensures { result ≡ verdict_status verdict }
{
    match verdict {
        Verdict::Valid => DONE,
        Verdict::Invalid(..) => INVALID,
        Verdict::Revoked(..) => REVOKED,
        Verdict::Unknown(_) => UNKNOWN,
    }
}

/// That of the one verdict of a comparison; 7 if there are two.
pub fn comparison_status(comparison: Comparison) -> u8
    ensures { result ≡ comparison_status comparison }
{
    match comparison {
        Comparison::Same(verdict) => verdict_status(verdict),
        Comparison::Differ(..) => DIFFERENT,
    }
}
