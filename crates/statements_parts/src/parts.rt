//! The parts that statements of both kinds are made of.

ghost use Rattle.std.specs.Prelude.{◌≡◌};
ghost use Rattle.asn.specs.Reading.{seen_tlv, left, Gives};
ghost use Rattle.asn.specs.Walk.{any, StepGives};
ghost use Rattle.asn.specs.Outermost.{outermost as asn_outermost};
ghost use Rattle.names.specs.GeneralView.{name_contents};
ghost use Rattle.cert.specs.AlgorithmIdentifier.{seen_algorithm};
ghost use Rattle.cert.specs.BitString.{seen_bit_string};
ghost use Rattle.cert.specs.OidSet.{oids_in};
ghost use Rattle.statements_parts.specs.Fault.{as_statement_der};
ghost use Rattle.statements_parts.specs.Parts.{name_in_statement, is_reason, next_statement_algorithm, next_serial, next_statement_signature, serial_in_statement, signature_in_statement};
ghost use Rattle.statements_parts.specs.Steps.{AddsExtension, OnRefused};

use crate::fault::{ReadingFault, StatementRefusal, StatementRule, name_refusal};
use asn::{BIT_STRING, Cursor, INTEGER, Tlv};
use cert::{
    AlgorithmIdentifier, BitString, Extension, OidSet, is_of_whole_octets, is_serial_number,
};
use names::Name;

/// The one value that the octets encode; else the fault `Der`. Time is linear in the octets; no memory is taken.
pub fn outermost(octets: &[u8]) -> Result<Tlv<'_>, StatementRefusal>
    ensures { Gives seen_tlv result (as_statement_der (asn_outermost octets.now)) }
{
    match Tlv::outermost(octets) {
        Ok(value) => Ok(value),
        Err((rule, at)) => Err((StatementRule::Der(rule), at)),
    }
}

/// CertificateSerialNumber ::= INTEGER, here of 1 to 32 octets and of any sign
#[tactic(auto, unfolding(crate::specs::Parts::serial_in_statement, asn::specs::Walk::check_that))]
fn serial_at(value: Tlv<'_>) -> Result<&[u8], StatementRefusal>
    ensures { Gives (λ contents. contents.now) result (serial_in_statement (seen_tlv value.entry)) }
{
    if is_serial_number(value.body) {
        Ok(value.body)
    } else {
        Err((StatementRule::Layout, value.at))
    }
}

/// Takes a serial number, and gives the contents of its INTEGER.
#[tactic(auto, unfolding(crate::specs::Parts::statement_component))]
pub fn take_serial<'a>(members: &mut Cursor<'a>) -> Result<&'a [u8], StatementRefusal>
    ensures walk { StepGives (λ contents. contents.now) result members.old members.new next_serial }
    ensures passed { left members.new ≡ (any (left members.old)).1 }
{
    serial_at(members.required(INTEGER, StatementRule::Layout)?)
}

/// The name that stands there, with its fault as one of a statement.
#[tactic(auto, unfolding(crate::specs::Parts::name_in_statement))]
pub fn name_at(value: Tlv<'_>) -> Result<Name<'_>, StatementRefusal>
    ensures { Gives name_contents result (name_in_statement (seen_tlv value.entry)) }
{
    Name::at(value).map_err(name_refusal)
}

/// Takes an algorithm identifier, whose parameters are not looked at.
#[tactic(auto, unfolding(crate::specs::Parts::next_in_statement))]
pub fn take_algorithm<'a>(
    members: &mut Cursor<'a>,
) -> Result<AlgorithmIdentifier<'a>, StatementRefusal>
    ensures walk { StepGives seen_algorithm result members.old members.new
        next_statement_algorithm }
    ensures passed { left members.new ≡ (any (left members.old)).1 }
{
    AlgorithmIdentifier::read(
        members.next_or(StatementRule::Layout)?,
        StatementRule::Layout,
    )
}

/// A BIT STRING whose bits must be whole octets.
#[tactic(auto, unfolding(crate::specs::Parts::signature_in_statement, asn::specs::Walk::check_that))]
fn signature_at(value: Tlv<'_>) -> Result<BitString<'_>, StatementRefusal>
    ensures { Gives seen_bit_string result (signature_in_statement (seen_tlv value.entry)) }
{
    if is_of_whole_octets(value.body) {
        Ok(BitString { value })
    } else {
        Err((StatementRule::Layout, value.at))
    }
}

/// Takes a signature BIT STRING.
#[tactic(auto, unfolding(crate::specs::Parts::statement_component))]
pub fn take_signature<'a>(members: &mut Cursor<'a>) -> Result<BitString<'a>, StatementRefusal>
    ensures walk { StepGives seen_bit_string result members.old members.new
        next_statement_signature }
    ensures passed { left members.new ≡ (any (left members.old)).1 }
{
    signature_at(members.required(BIT_STRING, StatementRule::Layout)?)
}

/// Reads an extension and adds its type to the set; else the fault `Layout`, as of `Extension::read`, or at the extension if its type is
/// in the set already. Memory is taken for more than 16 types.
#[tactic(auto, unfolding(crate::specs::Parts::new_extension, asn::specs::Walk::check_that))]
pub fn new_extension<'a>(
    types: &mut OidSet<'a>,
    value: Tlv<'a>,
) -> Result<Extension<'a>, ReadingFault>
    ensures walk { AddsExtension types.old types.new value.entry result }
    ensures kept { OnRefused result (oids_in types.new ≡ oids_in types.old) }
{
    let extension = Extension::read(value, StatementRule::Layout)?;
    if !types.insert(extension.oid.contents())? {
        return Err(ReadingFault::Refused(StatementRule::Layout, value.at));
    }
    Ok(extension)
}

/// Whether a CRLReason has this number: 0 to 6, or 8 to 10 (RFC 5280, 5.3.1).
pub fn is_reason(code: u8) -> bool
    ensures { result ≡ is_reason code }
{
    code <= 10 && code != 7
}
