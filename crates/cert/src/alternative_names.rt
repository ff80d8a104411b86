//! subjectAltName: further names of a certificate's subject (RFC 5280, 4.2.1.6).

ghost use Rattle.asn.specs.Reading.{seen_tlv, left, Gives};
ghost use Rattle.names.specs.GeneralLayout.{general};
ghost use Rattle.cert.specs.Fault.{GivesUnlessFull, ReadsUnlessFull};
ghost use Rattle.cert.specs.AlternativeNames.{has_name_form, alternative_names, seen_names, all_names, AddsName};

use crate::contained::contained_value;
use crate::fault::{CertFault, CertRefusal, CertRule, name_refusal};
use crate::limit::{MOST_NAMES, check_room};
use asn::{Cursor, SEQUENCE, Tlv};
use names::{General, NameRule, form_of_tag};
use std::alloc::Global;

/// The fault `NameLayout`, at the value, if it has the identifier of no general name.
#[tactic(auto, unfolding(crate::specs::AlternativeNames::has_name_form, asn::specs::Walk::check_that))]
fn check_form(value: Tlv<'_>) -> Result<(), CertRefusal>
    ensures { Gives (λ _. tt) result (has_name_form (seen_tlv value.entry)) }
{
    match form_of_tag(value.tag) {
        Some(_) => Ok(()),
        None => Err((CertRule::Name(NameRule::NameLayout), value.at)),
    }
}

/// Adds the name that the value is.
#[tactic(auto, unfolding(crate::specs::AlternativeNames::one_more_name))]
fn push_name<'a>(all: &mut Vec<General<'a>>, value: Tlv<'a>) -> Result<(), CertFault>
    ensures { AddsName value.entry all.old all.new result }
{
    check_form(value)?;
    check_room(MOST_NAMES, all.len(), value.at)?;
    let name = General::at(value).map_err(name_refusal)?;
    all.push(name)?;
    Ok(())
}

/// The names that the values are.
fn name_list<'a>(alloc: Global, members: Cursor<'a>) -> Result<Vec<General<'a>>, CertFault>
    ensures { GivesUnlessFull seen_names result (all_names (left members.entry)) }
{
    let mut members = members;
    let mut all = Vec::new(alloc);
    while let Some(value) = members.next() {
        push_name(&mut all, value)?;
    }
    Ok(all)
}

/// SubjectAltName ::= GeneralNames
///
/// GeneralNames ::= SEQUENCE SIZE (1..MAX) OF GeneralName
///
/// The names that the OCTET STRING holds, in order; else the first fault: `Der` in its contents, `ExtensionValue` at a value
/// that is no SEQUENCE, or at the end of one that is empty, `Name` in a general name, or `Limit` at the 4,097th.
#[tactic(auto, unfolding(crate::specs::AlternativeNames::alternative_names))]
pub(crate) fn read_alternative_names<'a>(
    alloc: Global,
    octet_string: Tlv<'a>,
) -> Result<Vec<General<'a>>, CertFault>
    ensures { ReadsUnlessFull seen_names result octet_string.entry alternative_names }
{
    let value = contained_value(octet_string)?;
    value.is_a(SEQUENCE, CertRule::ExtensionValue)?;
    let members = value.members();
    members.some(CertRule::ExtensionValue)?;
    name_list(alloc, members)
}
