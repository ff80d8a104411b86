//! What a store holds, without the serial numbers that its lists revoke.

use statements_facts::{NameKey, OcspAnswer, Scope};
use store_rows::Head;

/// An issuer, and the id under which its lists and responses stand.
#[derive(Drop)]
pub struct HeldIssuer {
    pub id: u32,
    /// The key of its name.
    pub name: NameKey,
    /// The whole encoding of its subjectPublicKeyInfo.
    pub key_info: Vec<u8>,
}

/// A revocation list, without its entries.
#[derive(Clone, Copy)]
pub struct HeldList {
    /// The id of its issuer.
    pub issuer: u32,
    pub scope: Scope,
    pub head: Head,
    /// How many entries it has.
    pub entries: u64,
}

/// What a response says of one certificate.
#[derive(Drop)]
pub struct HeldSingle {
    /// The id of the certificate's issuer.
    pub issuer: u32,
    /// The SHA-1 hash of the issuer's name, as the certificate spells it.
    pub name_hash: Vec<u8>,
    /// The contents octets of the certificate's serial number.
    pub serial: Vec<u8>,
    pub said: OcspAnswer,
}

/// All of it: issuers in the order of their ids, lists and responses in the order in which they came into the store.
#[derive(Drop)]
pub struct Listing {
    pub issuers: Vec<HeldIssuer>,
    pub lists: Vec<HeldList>,
    pub singles: Vec<HeldSingle>,
}
