//! The bases of nameConstraints on mail addresses and on URIs (RFC 5280, 4.2.1.10).

ghost use Rattle.std.specs.Prelude.{true, false};
ghost use Rattle.asn.specs.Reading.{left, seen_tlv};
ghost use Rattle.cert.specs.ExtensionValues.{seen_values};
ghost use Rattle.cert.specs.Fault.{GivesUnlessFull};
ghost use Rattle.cert_hosts.specs.Bases.{all_bases, bases_in, Finds, FindsIn, FindsNext, one_subtree, next_list, in_constraints};

use crate::base::Base;
use crate::contained::contained_value;
use asn::{Cursor, SEQUENCE, Tlv};
use cert::{CertFault, CertRule, ExtensionKind, ExtensionValues};
use std::alloc::Global;

/// rfc822Name [1] IA5String
const RFC822_NAME: u8 = 0x81;

/// uniformResourceIdentifier [6] IA5String
const URI_NAME: u8 = 0x86;

/// GeneralSubtree ::= SEQUENCE { base GeneralName, minimum [0], maximum [1] }
///
/// Adds the base, if it is about mail addresses or URIs.
#[tactic(auto, unfolding(crate::specs::Bases::one_subtree))]
fn take_subtree<'a>(
    all: &mut Vec<Base<'a>>,
    permitted: bool,
    value: Tlv<'a>,
) -> Result<(), CertFault>
    ensures { Finds all.old all.new result (one_subtree permitted) (seen_tlv value.entry) }
{
    value.is_a(SEQUENCE, CertRule::ExtensionValue)?;
    let mut members = value.members();
    let base = members.next_or(CertRule::ExtensionValue)?;
    match base.tag {
        RFC822_NAME => all.push(Base::Mail(permitted, base))?,
        URI_NAME => all.push(Base::Host(permitted, base))?,
        _ => {}
    }
    Ok(())
}

/// GeneralSubtrees ::= SEQUENCE SIZE (1..MAX) OF GeneralSubtree: the values inside.
fn take_subtrees<'a>(
    all: &mut Vec<Base<'a>>,
    permitted: bool,
    members: Cursor<'a>,
) -> Result<(), CertFault>
    ensures { FindsIn all.old all.new result (one_subtree permitted) (left members.entry) }
{
    let mut members = members;
    while let Some(value) = members.next() {
        take_subtree(all, permitted, value)?;
    }
    Ok(())
}

/// permittedSubtrees [0] GeneralSubtrees OPTIONAL
#[tactic(auto, unfolding(crate::specs::Bases::next_list))]
fn take_permitted<'a>(all: &mut Vec<Base<'a>>, members: &mut Cursor<'a>) -> Result<(), CertFault>
    ensures { FindsNext all.old all.new result (next_list true 0xA0) (left members.old)
        (left members.new) }
{
    match members.optional(0xA0) {
        None => Ok(()),
        Some(list) => take_subtrees(all, true, list.members()),
    }
}

/// excludedSubtrees [1] GeneralSubtrees OPTIONAL
#[tactic(auto, unfolding(crate::specs::Bases::next_list))]
fn take_excluded<'a>(all: &mut Vec<Base<'a>>, members: &mut Cursor<'a>) -> Result<(), CertFault>
    ensures { FindsNext all.old all.new result (next_list false 0xA1) (left members.old)
        (left members.new) }
{
    match members.optional(0xA1) {
        None => Ok(()),
        Some(list) => take_subtrees(all, false, list.members()),
    }
}

/// NameConstraints ::= SEQUENCE { permittedSubtrees [0] GeneralSubtrees OPTIONAL, excludedSubtrees [1] GeneralSubtrees OPTIONAL }
///
/// Adds the bases on mail addresses and URIs of the constraints that the OCTET STRING holds.
#[tactic(auto, unfolding(crate::specs::Bases::in_constraints))]
fn take_constraints<'a>(all: &mut Vec<Base<'a>>, octet_string: Tlv<'a>) -> Result<(), CertFault>
    ensures { Finds all.old all.new result in_constraints (seen_tlv octet_string.entry) }
{
    let value = contained_value(octet_string)?;
    value.is_a(SEQUENCE, CertRule::ExtensionValue)?;
    let mut members = value.members();
    take_permitted(all, &mut members)?;
    take_excluded(all, &mut members)?;
    Ok(())
}

/// The bases on mail addresses and URIs of the certificate with these values of extensions, in order.
#[tactic(auto, unfolding(crate::specs::Bases::bases_in))]
pub(crate) fn bases_in<'a>(
    alloc: Global,
    values: &ExtensionValues<'a>,
) -> Result<Vec<Base<'a>>, CertFault>
    ensures { GivesUnlessFull all_bases result (bases_in (seen_values values.now)) }
{
    let mut all = Vec::new(alloc);
    match values.of(ExtensionKind::NameConstraints) {
        None => {}
        Some(octet_string) => take_constraints(&mut all, octet_string)?,
    }
    Ok(all)
}
