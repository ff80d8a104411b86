//! Revocation lists (RFC 5280, 5.1).

use crate::building::sign;
use crate::extension_list::extension;
use crate::fault::NotationFault;
use crate::list_notation::{ListEntry, ListNotation, ListScope};
use crate::parts::{algorithm_tree, integer_contents, name_tree, primitive};
use der_tree::{Tree, encode};
use std::alloc::Global;

const CRL_NUMBER: &[u8] = b"\x55\x1D\x14";

const REASON_CODE: &[u8] = b"\x55\x1D\x15";

pub(crate) const ISSUING_DISTRIBUTION_POINT: &[u8] = b"\x55\x1D\x1C";

/// The revocationDate of each entry.
const REVOCATION_DATE: &[u8] = b"250520000000Z";

/// crlEntryExtensions: a reasonCode, an ENUMERATED
fn entry_extensions(alloc: Global, reason: u32) -> Result<Tree, NotationFault> {
    let code = Tree::Primitive(0x0A, integer_contents(alloc, reason)?);
    let extension = extension(alloc, REASON_CODE, false, &code)?;
    Ok(Tree::Constructed(0x30, vec![in alloc; extension]?))
}

/// SEQUENCE { userCertificate, revocationDate, crlEntryExtensions OPTIONAL }
fn entry(alloc: Global, entry: &ListEntry) -> Result<Tree, NotationFault> {
    let mut members = Vec::new(alloc);
    members.push(primitive(alloc, 0x02, &entry.serial)?)?;
    members.push(primitive(alloc, 0x17, REVOCATION_DATE)?)?;
    if let Some(reason) = entry.reason {
        members.push(entry_extensions(alloc, reason)?)?;
    }
    Ok(Tree::Constructed(0x30, members))
}

/// revokedCertificates SEQUENCE OF .. OPTIONAL: nothing if there are none
fn push_entries(
    alloc: Global,
    members: &mut Vec<Tree>,
    entries: &[ListEntry],
) -> Result<(), NotationFault> {
    let mut all = Vec::new(alloc);
    for listed in entries {
        all.push(entry(alloc, listed)?)?;
    }
    if !all.is_empty() {
        members.push(Tree::Constructed(0x30, all))?;
    }
    Ok(())
}

/// IssuingDistributionPoint ::= SEQUENCE { onlyContainsUserCerts [1] or onlyContainsCACerts [2] }
fn scope_tree(alloc: Global, scope: ListScope) -> Result<Tree, NotationFault> {
    let identifier = match scope {
        ListScope::User => 0x81,
        ListScope::Ca => 0x82,
    };
    let flag = primitive(alloc, identifier, &[0xFF])?;
    Ok(Tree::Constructed(0x30, vec![in alloc; flag]?))
}

/// crlExtensions [0] EXPLICIT: the number, and the critical issuingDistributionPoint if there is a scope
fn list_extensions(alloc: Global, notation: &ListNotation<'_>) -> Result<Tree, NotationFault> {
    let mut all = Vec::new(alloc);
    let number = primitive(alloc, 0x02, &notation.number)?;
    all.push(extension(alloc, CRL_NUMBER, false, &number)?)?;
    if let Some(scope) = notation.scope {
        let value = scope_tree(alloc, scope)?;
        all.push(extension(alloc, ISSUING_DISTRIBUTION_POINT, true, &value)?)?;
    }
    let list = Tree::Constructed(0x30, all);
    Ok(Tree::Constructed(0xA0, vec![in alloc; list]?))
}

/// TBSCertList ::= SEQUENCE { version, signature, issuer, thisUpdate, nextUpdate, revokedCertificates, crlExtensions }
fn signed_part(alloc: Global, notation: &ListNotation<'_>) -> Result<Tree, NotationFault> {
    let mut members = Vec::new(alloc);
    members.push(primitive(alloc, 0x02, &[1])?)?;
    members.push(algorithm_tree(alloc)?)?;
    members.push(name_tree(alloc, notation.issuer)?)?;
    members.push(primitive(alloc, 0x17, notation.this_update.as_bytes())?)?;
    members.push(primitive(alloc, 0x17, notation.next_update.as_bytes())?)?;
    push_entries(alloc, &mut members, &notation.entries)?;
    members.push(list_extensions(alloc, notation)?)?;
    Ok(Tree::Constructed(0x30, members))
}

/// The tree of the revocation list that the text asks for, for tests that damage it.
pub fn revocation_list_tree(alloc: Global, text: &str) -> Result<Tree, NotationFault> {
    let notation = ListNotation::read(alloc, text)?;
    let signed = signed_part(alloc, &notation)?;
    sign(alloc, signed, notation.signer)
}

/// The DER of the revocation list that the text asks for, in the notation at the head of this crate.
pub fn revocation_list(alloc: Global, text: &str) -> Result<Vec<u8>, NotationFault> {
    let tree = revocation_list_tree(alloc, text)?;
    Ok(encode(alloc, &tree)?)
}
