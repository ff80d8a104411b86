//! extKeyUsage: the purposes that a certificate is for (RFC 5280, 4.2.1.12).

ghost use Rattle.asn.specs.Reading.{left};
ghost use Rattle.cert.specs.Fault.{GivesUnlessFull, ReadsUnlessFull};
ghost use Rattle.cert.specs.Purposes.{purposes, seen_purposes, all_purposes, AddsPurpose};

use crate::contained::contained_value;
use crate::fault::{CertFault, CertRule};
use asn::{Cursor, OBJECT_IDENTIFIER, Oid, SEQUENCE, Tlv};
use std::alloc::Global;

/// Adds the purpose that the value is.
#[tactic(auto, unfolding(crate::specs::Purposes::one_more_purpose))]
fn push_purpose<'a>(all: &mut Vec<Oid<'a>>, value: Tlv<'a>) -> Result<(), CertFault>
    ensures { AddsPurpose value.entry all.old all.new result }
{
    value.is_a(OBJECT_IDENTIFIER, CertRule::ExtensionValue)?;
    all.push(Oid::new(value.body))?;
    Ok(())
}

/// The purposes that the values are.
fn purpose_list<'a>(alloc: Global, members: Cursor<'a>) -> Result<Vec<Oid<'a>>, CertFault>
    ensures { GivesUnlessFull seen_purposes result (all_purposes (left members.entry)) }
{
    let mut members = members;
    let mut all = Vec::new(alloc);
    while let Some(value) = members.next() {
        push_purpose(&mut all, value)?;
    }
    Ok(all)
}

/// ExtKeyUsageSyntax ::= SEQUENCE SIZE (1..MAX) OF KeyPurposeId
///
/// KeyPurposeId ::= OBJECT IDENTIFIER
///
/// The purposes that the OCTET STRING holds, in order; else the first fault: `Der` in its contents, or `ExtensionValue` at a
/// value with a wrong identifier, or at the end of the SEQUENCE if it is empty.
#[tactic(auto, unfolding(crate::specs::Purposes::purposes))]
pub(crate) fn read_purposes<'a>(
    alloc: Global,
    octet_string: Tlv<'a>,
) -> Result<Vec<Oid<'a>>, CertFault>
    ensures { ReadsUnlessFull seen_purposes result octet_string.entry purposes }
{
    let value = contained_value(octet_string)?;
    value.is_a(SEQUENCE, CertRule::ExtensionValue)?;
    let members = value.members();
    members.some(CertRule::ExtensionValue)?;
    purpose_list(alloc, members)
}
