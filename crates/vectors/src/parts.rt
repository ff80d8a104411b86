//! Names, keys and other parts of certificates and revocation lists as trees.

use crate::fault::NotationFault;
use der_tree::{Tree, encode};
use std::alloc::{AllocError, Global};

/// The contents of 2.5.4.3, the type of a common name.
const COMMON_NAME: &[u8] = b"\x55\x04\x03";

/// The contents of 1.2.3, the algorithm of every key and signature.
const ALGORITHM: &[u8] = b"\x2A\x03";

/// A primitive value.
pub fn primitive(alloc: Global, identifier: u8, contents: &[u8]) -> Result<Tree, AllocError> {
    Ok(Tree::Primitive(identifier, Vec::from_slice(alloc, contents)?))
}

/// The contents of the INTEGER of a number, as few octets as possible (X.690, 8.3).
pub(crate) fn integer_contents(alloc: Global, number: u32) -> Result<Vec<u8>, AllocError> {
    let mut contents = Vec::new(alloc);
    let mut begun = false;
    for octet in number.to_be_bytes() {
        if !begun && octet >= 128 {
            contents.push(0)?;
        }
        begun = begun || octet != 0;
        if begun {
            contents.push(octet)?;
        }
    }
    if !begun {
        contents.push(0)?;
    }
    Ok(contents)
}

/// A BIT STRING of whole octets.
pub fn bit_string(alloc: Global, octets: &[u8]) -> Result<Tree, AllocError> {
    let mut contents = Vec::from_slice(alloc, &[0])?;
    contents.extend_from_slice(octets)?;
    Ok(Tree::Primitive(0x03, contents))
}

/// An RDN with one attribute, a common name.
fn rdn(alloc: Global, common_name: &str) -> Result<Tree, NotationFault> {
    let kind = primitive(alloc, 0x06, COMMON_NAME)?;
    let value = primitive(alloc, 0x13, common_name.as_bytes())?;
    let attribute = Tree::Constructed(0x30, vec![in alloc; kind, value]?);
    Ok(Tree::Constructed(0x31, vec![in alloc; attribute]?))
}

/// The name with one RDN, or with none if the common name has no characters.
pub fn name_tree(alloc: Global, common_name: &str) -> Result<Tree, NotationFault> {
    let mut rdns = Vec::new(alloc);
    if !common_name.is_empty() {
        rdns.push(rdn(alloc, common_name)?)?;
    }
    Ok(Tree::Constructed(0x30, rdns))
}

/// The algorithm identifier 1.2.3 without parameters.
pub fn algorithm_tree(alloc: Global) -> Result<Tree, NotationFault> {
    let kind = primitive(alloc, 0x06, ALGORITHM)?;
    Ok(Tree::Constructed(0x30, vec![in alloc; kind]?))
}

/// The subjectPublicKeyInfo of a key, whose octets are those of the text.
pub(crate) fn key_info_tree(alloc: Global, key: &str) -> Result<Tree, NotationFault> {
    let algorithm = algorithm_tree(alloc)?;
    let bits = bit_string(alloc, key.as_bytes())?;
    Ok(Tree::Constructed(0x30, vec![in alloc; algorithm, bits]?))
}

/// The DER of the name that `name` stands for in a text: one RDN with one common name, or no RDN if the text is empty.
pub fn name(alloc: Global, common_name: &str) -> Result<Vec<u8>, NotationFault> {
    let tree = name_tree(alloc, common_name)?;
    Ok(encode(alloc, &tree)?)
}

/// The DER of the subjectPublicKeyInfo of a key.
pub fn key_info(alloc: Global, key: &str) -> Result<Vec<u8>, NotationFault> {
    let tree = key_info_tree(alloc, key)?;
    Ok(encode(alloc, &tree)?)
}
