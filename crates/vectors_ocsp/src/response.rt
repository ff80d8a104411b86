//! OCSP responses (RFC 6960, 4.2.1).

use crate::response_notation::{Responder, ResponseNotation, Single, Status};
use der_tree::{Tree, encode};
use sha1::Sha1;
use sha2::{Digest, Sha256};
use std::alloc::Global;
use vectors::{
    NotationFault, algorithm_tree, bit_string, key_info, name, name_tree, primitive, toy_signature,
    tree_of,
};

/// id-sha1, 1.3.14.3.2.26
const SHA_1: &[u8] = b"\x2B\x0E\x03\x02\x1A";

/// id-sha256, 2.16.840.1.101.3.4.2.1
const SHA_256: &[u8] = b"\x60\x86\x48\x01\x65\x03\x04\x02\x01";

/// id-pkix-ocsp-basic
const BASIC_RESPONSE: &[u8] = b"\x2B\x06\x01\x05\x05\x07\x30\x01\x01";

/// An EXPLICIT tag over one value.
fn explicit(alloc: Global, identifier: u8, inside: Tree) -> Result<Tree, NotationFault> {
    Ok(Tree::Constructed(identifier, vec![in alloc; inside]?))
}

/// An OCTET STRING of the hash of these octets.
fn hash_tree(alloc: Global, by_sha256: bool, octets: &[u8]) -> Result<Tree, NotationFault> {
    if by_sha256 {
        Ok(primitive(alloc, 0x04, &Sha256::digest(octets))?)
    } else {
        Ok(primitive(alloc, 0x04, &Sha1::digest(octets))?)
    }
}

/// CertID ::= SEQUENCE { hashAlgorithm, issuerNameHash, issuerKeyHash, serialNumber }
fn cert_id(
    alloc: Global,
    notation: &ResponseNotation<'_>,
    single: &Single,
) -> Result<Tree, NotationFault> {
    let by_sha256 = single.by_sha256;
    let kind = primitive(alloc, 0x06, if by_sha256 { SHA_256 } else { SHA_1 })?;
    let algorithm = Tree::Constructed(0x30, vec![in alloc; kind]?);
    let issuer = name(alloc, notation.named)?;
    let name_hash = hash_tree(alloc, by_sha256, &issuer)?;
    let key_hash = hash_tree(alloc, by_sha256, notation.key.as_bytes())?;
    let serial = primitive(alloc, 0x02, &single.serial)?;
    Ok(Tree::Constructed(
        0x30,
        vec![in alloc; algorithm, name_hash, key_hash, serial]?,
    ))
}

/// CertStatus ::= CHOICE { good [0], revoked [1], unknown [2] }
fn status_tree(alloc: Global, status: Status, revoked_at: &str) -> Result<Tree, NotationFault> {
    match status {
        Status::Good => Ok(primitive(alloc, 0x80, &[])?),
        Status::Unknown => Ok(primitive(alloc, 0x82, &[])?),
        Status::Revoked(reason) => {
            let mut members = vec![in alloc; primitive(alloc, 0x18, revoked_at.as_bytes())?]?;
            if let Some(reason) = reason {
                let [.., octet] = reason.to_be_bytes();
                let code = primitive(alloc, 0x0A, &[octet])?;
                members.push(explicit(alloc, 0xA0, code)?)?;
            }
            Ok(Tree::Constructed(0xA1, members))
        }
    }
}

/// SingleResponse ::= SEQUENCE { certID, certStatus, thisUpdate, nextUpdate [0] }
fn single_tree(
    alloc: Global,
    notation: &ResponseNotation<'_>,
    single: &Single,
) -> Result<Tree, NotationFault> {
    let id = cert_id(alloc, notation, single)?;
    let status = status_tree(alloc, single.status, notation.this_update)?;
    let this_update = primitive(alloc, 0x18, notation.this_update.as_bytes())?;
    let mut members = vec![in alloc; id, status, this_update]?;
    if let Some(text) = notation.next_update {
        let next_update = primitive(alloc, 0x18, text.as_bytes())?;
        members.push(explicit(alloc, 0xA0, next_update)?)?;
    }
    Ok(Tree::Constructed(0x30, members))
}

/// ResponderID ::= CHOICE { byName [1], byKey [2] }
fn responder_tree(alloc: Global, responder: Responder<'_>) -> Result<Tree, NotationFault> {
    match responder {
        Responder::ByName(text) => explicit(alloc, 0xA1, name_tree(alloc, text)?),
        Responder::ByKey(key) => {
            let hash = primitive(alloc, 0x04, &Sha1::digest(key.as_bytes()))?;
            explicit(alloc, 0xA2, hash)
        }
    }
}

/// ResponseData ::= SEQUENCE { responderID, producedAt, responses }
fn signed_part(alloc: Global, notation: &ResponseNotation<'_>) -> Result<Tree, NotationFault> {
    let responder = responder_tree(alloc, notation.responder)?;
    let produced_at = primitive(alloc, 0x18, notation.produced_at.as_bytes())?;
    let mut singles = Vec::new(alloc);
    for single in &notation.singles {
        singles.push(single_tree(alloc, notation, single)?)?;
    }
    let responses = Tree::Constructed(0x30, singles);
    Ok(Tree::Constructed(0x30, vec![in alloc; responder, produced_at, responses]?))
}

/// The certificate that the text asks for, or, if the text is empty, a SEQUENCE without members, which is none.
fn certificate_or_none(alloc: Global, text: &str) -> Result<Tree, NotationFault> {
    if text.is_empty() {
        return Ok(Tree::Constructed(0x30, Vec::new(alloc)));
    }
    tree_of(alloc, text)
}

/// certs [0] EXPLICIT SEQUENCE OF Certificate: nothing if there are none
fn push_certificates(
    alloc: Global,
    members: &mut Vec<Tree>,
    certificates: &[&str],
) -> Result<(), NotationFault> {
    if certificates.is_empty() {
        return Ok(());
    }
    let mut all = Vec::new(alloc);
    for text in certificates {
        all.push(certificate_or_none(alloc, text)?)?;
    }
    members.push(explicit(alloc, 0xA0, Tree::Constructed(0x30, all))?)?;
    Ok(())
}

/// BasicOCSPResponse ::= SEQUENCE { tbsResponseData, signatureAlgorithm, signature, certs [0] }
fn basic_response(
    alloc: Global,
    notation: &ResponseNotation<'_>,
    certificates: &[&str],
) -> Result<Tree, NotationFault> {
    let signed = signed_part(alloc, notation)?;
    let signer = key_info(alloc, notation.signer)?;
    let message = encode(alloc, &signed)?;
    let algorithm = algorithm_tree(alloc)?;
    let signature = bit_string(alloc, &toy_signature(&signer, &message))?;
    let mut members = vec![in alloc; signed, algorithm, signature]?;
    push_certificates(alloc, &mut members, certificates)?;
    Ok(Tree::Constructed(0x30, members))
}

/// The DER of the response that the text asks for, in the notation at the head of this crate, with the certificates that these texts ask
/// for in `certs`.
pub fn ocsp_response(
    alloc: Global,
    text: &str,
    certificates: &[&str],
) -> Result<Vec<u8>, NotationFault> {
    let notation = ResponseNotation::read(alloc, text)?;
    let basic = basic_response(alloc, &notation, certificates)?;
    let kind = primitive(alloc, 0x06, BASIC_RESPONSE)?;
    let octets = Tree::Primitive(0x04, encode(alloc, &basic)?);
    let bytes = Tree::Constructed(0x30, vec![in alloc; kind, octets]?);
    let status = primitive(alloc, 0x0A, &[0])?;
    let whole = Tree::Constructed(0x30, vec![in alloc; status, explicit(alloc, 0xA0, bytes)?]?);
    Ok(encode(alloc, &whole)?)
}
