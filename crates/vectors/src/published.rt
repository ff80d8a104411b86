//! Certificates and lists with the names under which lists are published. `None` is answered if there is no memory for one.

use crate::building::{sign, tree_of};
use crate::list_building::{ISSUING_DISTRIBUTION_POINT, revocation_list_tree};
use crate::parts::{name_tree, primitive};
use der_tree::{Tree, encode};
use std::alloc::Global;

/// A list in the notation of `vectors`, the identifier of a flag of its scope or 0, and the names under which it is published.
pub type ListText = (&'static str, u8, &'static [&'static str]);

/// Among the names of a certificate's point: it has reasons, keyCompromise alone.
pub const KEY_COMPROMISE: &str = "{keyCompromise}";

/// Among the names of a certificate's point: it has a cRLIssuer, CN=I.
pub const CRL_ISSUER: &str = "{cRLIssuer}";

/// 2.5.29.31
const POINTS: &[u8] = b"\x55\x1D\x1F";

fn constructed(alloc: Global, identifier: u8, member: Tree) -> Option<Tree> {
    Some(Tree::Constructed(identifier, vec![in alloc; member].ok()?))
}

/// distributionPoint [0] fullName [0]: uniformResourceIdentifiers, but for words in braces
fn full_name(alloc: Global, names: &[&str]) -> Option<Tree> {
    let mut all = Vec::new(alloc);
    for name in names.iter().filter(|name| !name.starts_with('{')) {
        all.push(primitive(alloc, 0x86, name.as_bytes()).ok()?)
            .ok()?;
    }
    constructed(alloc, 0xA0, Tree::Constructed(0xA0, all))
}

/// Extension ::= SEQUENCE { extnID, critical, extnValue }
fn extension(alloc: Global, oid: &[u8], critical: bool, value: Tree) -> Option<Tree> {
    let mut members = Vec::new(alloc);
    members.push(primitive(alloc, 0x06, oid).ok()?).ok()?;
    if critical {
        members.push(primitive(alloc, 0x01, b"\xFF").ok()?).ok()?;
    }
    let octets = encode(alloc, &value).ok()?;
    members.push(Tree::Primitive(0x04, octets)).ok()?;
    Some(Tree::Constructed(0x30, members))
}

/// cRLIssuer [2]: the directoryName CN=I
fn crl_issuer(alloc: Global) -> Option<Tree> {
    let name = constructed(alloc, 0xA4, name_tree(alloc, "I").ok()?)?;
    constructed(alloc, 0xA2, name)
}

/// Whether the word stands among the names.
fn has(names: &[&str], word: &str) -> bool {
    names.iter().any(|name| *name == word)
}

/// DistributionPoint ::= SEQUENCE { distributionPoint, reasons, cRLIssuer }
fn distribution_point(alloc: Global, names: &[&str]) -> Option<Tree> {
    let mut members = Vec::new(alloc);
    members.push(full_name(alloc, names)?).ok()?;
    if has(names, KEY_COMPROMISE) {
        members
            .push(primitive(alloc, 0x81, b"\x06\x40").ok()?)
            .ok()?;
    }
    if has(names, CRL_ISSUER) {
        members.push(crl_issuer(alloc)?).ok()?;
    }
    Some(Tree::Constructed(0x30, members))
}

/// cRLDistributionPoints: SEQUENCE OF DistributionPoint
fn points_extension(alloc: Global, points: &[&[&str]]) -> Option<Tree> {
    let mut all = Vec::new(alloc);
    for names in points {
        all.push(distribution_point(alloc, names)?).ok()?;
    }
    extension(alloc, POINTS, false, Tree::Constructed(0x30, all))
}

/// issuingDistributionPoint: SEQUENCE { distributionPoint, a flag }
fn issuing_point(alloc: Global, flag: u8, names: &[&str]) -> Option<Tree> {
    let mut members = Vec::new(alloc);
    if !names.is_empty() {
        members.push(full_name(alloc, names)?).ok()?;
    }
    if flag != 0 {
        members.push(primitive(alloc, flag, b"\xFF").ok()?).ok()?;
    }
    extension(
        alloc,
        ISSUING_DISTRIBUTION_POINT,
        true,
        Tree::Constructed(0x30, members),
    )
}

/// The first member of a signed value.
fn signed_part(tree: Tree) -> Option<Tree> {
    let Tree::Constructed(_, mut members) = tree else {
        return None;
    };
    if members.is_empty() {
        return None;
    }
    Some(members.remove(0))
}

/// Extensions under their explicit tag, with one more behind them.
fn with_extension(alloc: Global, extensions: Tree, one: Tree) -> Option<Tree> {
    let Tree::Constructed(identifier, mut inside) = extensions else {
        return None;
    };
    let Tree::Constructed(_, mut all) = inside.pop()? else {
        return None;
    };
    all.push(one).ok()?;
    constructed(alloc, identifier, Tree::Constructed(0x30, all))
}

/// The same in the members of a signed part, of which the last are the extensions if there are any.
fn with_points(alloc: Global, members: Vec<Tree>, one: Tree) -> Option<Vec<Tree>> {
    let mut members = members;
    let last = members.pop()?;
    if matches!(&last, Tree::Constructed(0xA3, _)) {
        members.push(with_extension(alloc, last, one)?).ok()?;
        return Some(members);
    }
    members.push(last).ok()?;
    let list = constructed(alloc, 0x30, one)?;
    members.push(constructed(alloc, 0xA3, list)?).ok()?;
    Some(members)
}

/// The octets of the certificate in the notation of `vectors`, with these points, each of which has a full name with these URIs, and, where
/// `KEY_COMPROMISE` or `CRL_ISSUER` stands among them, reasons or a cRLIssuer, signed under the key. A point without names is malformed.
pub fn certificate_at(
    alloc: Global,
    text: &str,
    points: &[&[&str]],
    signer: &str,
) -> Option<Vec<u8>> {
    let tree = tree_of(alloc, text).ok()?;
    if points.is_empty() {
        return encode(alloc, &tree).ok();
    }
    let Tree::Constructed(identifier, members) = signed_part(tree)? else {
        return None;
    };
    let members = with_points(alloc, members, points_extension(alloc, points)?)?;
    let anew = sign(alloc, Tree::Constructed(identifier, members), signer).ok()?;
    encode(alloc, &anew).ok()
}

/// The octets of the list, with its names and flag in a critical issuingDistributionPoint, signed under the key R.
pub fn list_at(alloc: Global, list: ListText) -> Option<Vec<u8>> {
    let (text, flag, names) = list;
    let tree = revocation_list_tree(alloc, text).ok()?;
    if flag == 0 && names.is_empty() {
        return encode(alloc, &tree).ok();
    }
    let Tree::Constructed(identifier, mut members) = signed_part(tree)? else {
        return None;
    };
    let point = issuing_point(alloc, flag, names)?;
    let extensions = with_extension(alloc, members.pop()?, point)?;
    members.push(extensions).ok()?;
    let anew = sign(alloc, Tree::Constructed(identifier, members), "R").ok()?;
    encode(alloc, &anew).ok()
}
