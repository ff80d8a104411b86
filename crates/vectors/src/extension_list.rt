//! The extensions of a certificate (RFC 5280, 4.2).

use crate::fault::NotationFault;
use crate::notation::{GeneralName, Notation};
use crate::parts::{integer_contents, name_tree, primitive};
use der_tree::{Tree, encode};
use std::alloc::Global;

const KEY_USAGE: &[u8] = b"\x55\x1D\x0F";

const ALTERNATIVE_NAMES: &[u8] = b"\x55\x1D\x11";

const BASIC_CONSTRAINTS: &[u8] = b"\x55\x1D\x13";

const NAME_CONSTRAINTS: &[u8] = b"\x55\x1D\x1E";

const POLICY_CONSTRAINTS: &[u8] = b"\x55\x1D\x24";

const PURPOSES: &[u8] = b"\x55\x1D\x25";

/// id-pkix-ocsp-nocheck (RFC 6960, 4.2.2.2.1)
const NO_CHECK: &[u8] = b"\x2B\x06\x01\x05\x05\x07\x30\x01\x05";

/// Extension ::= SEQUENCE { extnID, critical BOOLEAN DEFAULT FALSE, extnValue OCTET STRING }
pub(crate) fn extension(
    alloc: Global,
    kind: &[u8],
    critical: bool,
    value: &Tree,
) -> Result<Tree, NotationFault> {
    let mut members = vec![in alloc; primitive(alloc, 0x06, kind)?]?;
    if critical {
        members.push(primitive(alloc, 0x01, &[0xFF])?)?;
    }
    members.push(Tree::Primitive(0x04, encode(alloc, value)?))?;
    Ok(Tree::Constructed(0x30, members))
}

fn general_name(alloc: Global, name: &GeneralName<'_>) -> Result<Tree, NotationFault> {
    match name {
        GeneralName::Dns(text) => Ok(primitive(alloc, 0x82, text.as_bytes())?),
        GeneralName::Uri(text) => Ok(primitive(alloc, 0x86, text.as_bytes())?),
        GeneralName::Ip(octets) => Ok(primitive(alloc, 0x87, octets)?),
        GeneralName::Directory(text) => {
            let name = name_tree(alloc, text)?;
            Ok(Tree::Constructed(0xA4, vec![in alloc; name]?))
        }
    }
}

/// SubjectAltName ::= SEQUENCE OF GeneralName
fn alternative_names(alloc: Global, names: &[GeneralName<'_>]) -> Result<Tree, NotationFault> {
    let mut members = Vec::new(alloc);
    for name in names {
        members.push(general_name(alloc, name)?)?;
    }
    Ok(Tree::Constructed(0x30, members))
}

/// BasicConstraints ::= SEQUENCE { cA BOOLEAN DEFAULT FALSE, pathLenConstraint INTEGER OPTIONAL }
fn basic_constraints(
    alloc: Global,
    ca: bool,
    path_length: Option<u32>,
) -> Result<Tree, NotationFault> {
    let mut members = Vec::new(alloc);
    if ca {
        members.push(primitive(alloc, 0x01, &[0xFF])?)?;
    }
    if let Some(number) = path_length {
        members.push(Tree::Primitive(0x02, integer_contents(alloc, number)?))?;
    }
    Ok(Tree::Constructed(0x30, members))
}

/// GeneralSubtrees ::= SEQUENCE OF GeneralSubtree, under the tag of the permitted or the excluded ones
fn subtrees(alloc: Global, tag: u8, bases: &[GeneralName<'_>]) -> Result<Tree, NotationFault> {
    let mut members = Vec::new(alloc);
    for base in bases {
        let name = general_name(alloc, base)?;
        members.push(Tree::Constructed(0x30, vec![in alloc; name]?))?;
    }
    Ok(Tree::Constructed(tag, members))
}

/// NameConstraints ::= SEQUENCE { permittedSubtrees [0] OPTIONAL, excludedSubtrees [1] OPTIONAL }
fn name_constraints(
    alloc: Global,
    permitted: &[GeneralName<'_>],
    excluded: &[GeneralName<'_>],
) -> Result<Tree, NotationFault> {
    let mut members = Vec::new(alloc);
    if !permitted.is_empty() {
        members.push(subtrees(alloc, 0xA0, permitted)?)?;
    }
    if !excluded.is_empty() {
        members.push(subtrees(alloc, 0xA1, excluded)?)?;
    }
    Ok(Tree::Constructed(0x30, members))
}

/// ExtKeyUsageSyntax ::= SEQUENCE OF KeyPurposeId
fn purposes(alloc: Global, kinds: &[Vec<u8>]) -> Result<Tree, NotationFault> {
    let mut members = Vec::new(alloc);
    for kind in kinds {
        members.push(primitive(alloc, 0x06, kind)?)?;
    }
    Ok(Tree::Constructed(0x30, members))
}

/// What says which keys and names there are: keyUsage and subjectAltName.
fn push_for_the_subject(
    alloc: Global,
    all: &mut Vec<Tree>,
    notation: &Notation<'_>,
) -> Result<(), NotationFault> {
    if let Some(contents) = &notation.usage {
        let value = primitive(alloc, 0x03, contents)?;
        all.push(extension(alloc, KEY_USAGE, false, &value)?)?;
    }
    if !notation.alternative_names.is_empty() {
        let value = alternative_names(alloc, &notation.alternative_names)?;
        all.push(extension(alloc, ALTERNATIVE_NAMES, false, &value)?)?;
    }
    Ok(())
}

/// What bounds the certificates below: basicConstraints and nameConstraints.
fn push_constraints(
    alloc: Global,
    all: &mut Vec<Tree>,
    notation: &Notation<'_>,
) -> Result<(), NotationFault> {
    if notation.ca || notation.path_length.is_some() {
        let value = basic_constraints(alloc, notation.ca, notation.path_length)?;
        all.push(extension(alloc, BASIC_CONSTRAINTS, true, &value)?)?;
    }
    if !notation.permitted.is_empty() || !notation.excluded.is_empty() {
        let value = name_constraints(alloc, &notation.permitted, &notation.excluded)?;
        all.push(extension(alloc, NAME_CONSTRAINTS, true, &value)?)?;
    }
    Ok(())
}

/// extKeyUsage, policyConstraints, id-pkix-ocsp-nocheck and those that are not known.
fn push_others(
    alloc: Global,
    all: &mut Vec<Tree>,
    notation: &Notation<'_>,
) -> Result<(), NotationFault> {
    if !notation.purposes.is_empty() {
        let value = purposes(alloc, &notation.purposes)?;
        all.push(extension(alloc, PURPOSES, false, &value)?)?;
    }
    if let Some(critical) = notation.policy {
        let value = Tree::Constructed(0x30, Vec::new(alloc));
        all.push(extension(alloc, POLICY_CONSTRAINTS, critical, &value)?)?;
    }
    let null = Tree::Primitive(0x05, Vec::new(alloc));
    if notation.no_check {
        all.push(extension(alloc, NO_CHECK, false, &null)?)?;
    }
    for kind in &notation.critical {
        all.push(extension(alloc, kind, true, &null)?)?;
    }
    Ok(())
}

/// The extensions that the text asks for, in a fixed order.
pub(crate) fn extensions(
    alloc: Global,
    notation: &Notation<'_>,
) -> Result<Vec<Tree>, NotationFault> {
    let mut all = Vec::new(alloc);
    push_for_the_subject(alloc, &mut all, notation)?;
    push_constraints(alloc, &mut all, notation)?;
    push_others(alloc, &mut all, notation)?;
    Ok(all)
}
