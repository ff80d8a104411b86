//! basicConstraints: whether a certificate is that of an authority, and how long a path from it may be (RFC 5280, 4.2.1.9).

ghost use Rattle.asn.specs.Reading.{StepGives, ReadsAs};
ghost use Rattle.cert.specs.BasicConstraints.{path_length, basic_constraints, seen_basic_constraints};

use crate::contained::contained_value;
use crate::fault::{CertRefusal, CertRule};
use crate::number::{is_negative_number, saturated_number};
use asn::{Cursor, INTEGER, SEQUENCE, Tlv};

/// BasicConstraints ::= SEQUENCE { cA BOOLEAN DEFAULT FALSE, pathLenConstraint INTEGER (0..MAX) OPTIONAL }
#[derive(Clone, Copy, Debug, PartialEq, Eq)]
pub struct BasicConstraints {
    pub ca: bool,
    /// The path length: the number, or the greatest `u32` if it is greater.
    pub path_length: Option<u32>,
}

/// The path length, if it is there; else the fault, at it, if it is negative.
#[tactic(auto, unfolding(crate::specs::BasicConstraints::path_length))]
fn take_path_length(members: &mut Cursor<'_>) -> Result<Option<u32>, CertRefusal>
    ensures { StepGives (λ number. number) result members.old members.new path_length }
{
    match members.optional(INTEGER) {
        None => Ok(None),
        Some(number) => {
            if is_negative_number(number.body) {
                Err((CertRule::ExtensionValue, number.at))
            } else {
                Ok(Some(saturated_number(number.body)))
            }
        }
    }
}

impl BasicConstraints {
    /// Reads the basic constraints in the OCTET STRING; else the first fault: `Der` in its contents, or `ExtensionValue` at a value with a
    /// wrong identifier or left over, at a BOOLEAN that is not TRUE, or at a negative path length. A path length without `ca` is accepted.
    #[tactic(auto, unfolding(crate::specs::BasicConstraints::basic_constraints))]
    pub fn read(octet_string: Tlv<'_>) -> Result<BasicConstraints, CertRefusal>
        ensures { ReadsAs seen_basic_constraints result octet_string.entry basic_constraints }
    {
        let value = contained_value(octet_string)?;
        value.is_a(SEQUENCE, CertRule::ExtensionValue)?;
        let mut members = value.members();
        let ca = members.default_false(CertRule::ExtensionValue)?;
        let path_length = take_path_length(&mut members)?;
        members.ended(CertRule::ExtensionValue)?;
        Ok(BasicConstraints { ca, path_length })
    }
}
