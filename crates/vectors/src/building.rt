//! Certificates (RFC 5280, 4.1).

use crate::extension_list::extensions;
use crate::fault::NotationFault;
use crate::notation::Notation;
use crate::parts::{algorithm_tree, bit_string, key_info, key_info_tree, name_tree, primitive};
use crate::toy_verifier::toy_signature;
use cert::Version;
use der_tree::{Tree, encode};
use std::alloc::Global;

/// version [0] EXPLICIT INTEGER: nothing in v1, which is the default
fn push_version(
    alloc: Global,
    members: &mut Vec<Tree>,
    version: Version,
) -> Result<(), NotationFault> {
    let number = match version {
        Version::V1 => return Ok(()),
        Version::V2 => primitive(alloc, 0x02, &[1])?,
        Version::V3 => primitive(alloc, 0x02, &[2])?,
    };
    members.push(Tree::Constructed(0xA0, vec![in alloc; number]?))?;
    Ok(())
}

/// Validity ::= SEQUENCE { notBefore, notAfter }, each a UTCTime
fn validity(alloc: Global, notation: &Notation<'_>) -> Result<Tree, NotationFault> {
    let not_before = primitive(alloc, 0x17, notation.not_before.as_bytes())?;
    let not_after = primitive(alloc, 0x17, notation.not_after.as_bytes())?;
    Ok(Tree::Constructed(0x30, vec![in alloc; not_before, not_after]?))
}

/// extensions [3] EXPLICIT: nothing if there are none
fn push_extensions(
    alloc: Global,
    members: &mut Vec<Tree>,
    notation: &Notation<'_>,
) -> Result<(), NotationFault> {
    let all = extensions(alloc, notation)?;
    if !all.is_empty() {
        let list = Tree::Constructed(0x30, all);
        members.push(Tree::Constructed(0xA3, vec![in alloc; list]?))?;
    }
    Ok(())
}

/// TBSCertificate ::= SEQUENCE { version, serialNumber, signature, issuer, validity, subject, subjectPublicKeyInfo, extensions }
fn signed_part(alloc: Global, notation: &Notation<'_>) -> Result<Tree, NotationFault> {
    let mut members = Vec::new(alloc);
    push_version(alloc, &mut members, notation.version)?;
    members.push(primitive(alloc, 0x02, &notation.serial)?)?;
    members.push(algorithm_tree(alloc)?)?;
    members.push(name_tree(alloc, notation.issuer)?)?;
    members.push(validity(alloc, notation)?)?;
    members.push(name_tree(alloc, notation.subject)?)?;
    members.push(key_info_tree(alloc, notation.key)?)?;
    push_extensions(alloc, &mut members, notation)?;
    Ok(Tree::Constructed(0x30, members))
}

/// The tree of the certificate with this signed part, signed under the key, for tests that damage the signed part.
pub fn sign(alloc: Global, signed: Tree, key: &str) -> Result<Tree, NotationFault> {
    let signer = key_info(alloc, key)?;
    let message = encode(alloc, &signed)?;
    let algorithm = algorithm_tree(alloc)?;
    let signature = bit_string(alloc, &toy_signature(&signer, &message))?;
    Ok(Tree::Constructed(0x30, vec![in alloc; signed, algorithm, signature]?))
}

/// The tree of the certificate that the text asks for, for tests that damage it.
pub fn tree_of(alloc: Global, text: &str) -> Result<Tree, NotationFault> {
    let notation = Notation::read(alloc, text)?;
    let signed = signed_part(alloc, &notation)?;
    sign(alloc, signed, notation.signer)
}

/// The DER of the certificate that the text asks for, in the notation at the head of this crate.
pub fn certificate(alloc: Global, text: &str) -> Result<Vec<u8>, NotationFault> {
    let tree = tree_of(alloc, text)?;
    Ok(encode(alloc, &tree)?)
}
