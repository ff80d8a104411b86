//! For whom a statement speaks.

ghost use Rattle.std.specs.Prelude.{◌≡◌, IfOk};
ghost use Rattle.statements_facts.specs.Fact.{seen_issuer};
ghost use Rattle.statements_facts.specs.Statement.{at_point};

use std::alloc::{AllocError, Global};
use std::marker::Model;

/// The key of a name: two names have one key exactly if they match (RFC 5280, 7.1).
#[derive(Drop)]
pub struct NameKey {
    octets: Vec<u8>,
}

impl Model for NameKey {
    ghost use Rattle.std.specs.Prelude.{ℕ, List};

    ghost Value = { List ℕ };

    ghost view = { λ key. key.octets.items };
}

impl NameKey {
    /// The key with these octets.
    pub fn from_octets(octets: Vec<u8>) -> NameKey
        ensures { result ≡ octets.items }
    {
        NameKey { octets }
    }

    /// The octets.
    pub fn as_slice(&self) -> &[u8]
        ensures { result.now ≡ self.now }
    {
        self.octets.as_slice()
    }
}

/// Whom a statement speaks for: the issuer of certificates with this name and this key.
#[derive(Drop)]
pub struct Issuer<'a> {
    /// The key of its name.
    pub name: NameKey,
    /// The whole encoding of its subjectPublicKeyInfo.
    pub key_info: &'a [u8],
}

impl<'a> Issuer<'a> {
    /// The issuer at a point where it publishes lists, a general name as its octets (RFC 5280, 5.2.5). The name is copied.
    pub fn at_point(&self, alloc: Global, point: &[u8]) -> Result<Issuer<'a>, AllocError>
        ensures { IfOk result (λ issuer.
            seen_issuer issuer ≡ at_point point.now (seen_issuer self.now)) }
    {
        let name = self.name.as_slice();
        let mut octets = Vec::with_capacity(alloc, name.len().saturating_add(point.len()))?;
        octets.extend_from_slice(name)?;
        octets.extend_from_slice(point)?;
        Ok(Issuer {
            name: NameKey::from_octets(octets),
            key_info: self.key_info,
        })
    }
}
