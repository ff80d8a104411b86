//! Sets of OBJECT IDENTIFIERs.

ghost use Rattle.std.specs.Prelude.{◌≡◌, not, OnOk, IfOk};
ghost use Rattle.std.specs.Str.{bytes_eq};
ghost use Rattle.std.specs.FinSet.{empty, contains, insert};
ghost use Rattle.cert.specs.OidSet.{oids_from, oids_in};

use arrayvec::ArrayVec;
use std::alloc::{AllocError, Global};
use std::collections::BTreeSet;

/// How many stand on the stack: certificates have fewer extensions.
const FEW: usize = 16;

/// Whether the octets are the same. Types of extensions mostly differ in their last octet alone, which is compared first.
fn is_same(oid: &[u8], other: &[u8]) -> bool
    ensures { result ≡ bytes_eq oid.now other.now }
{
    oid.len() == other.len() && oid.last() == other.last() && oid == other
}

/// Whether it is one of the others.
fn is_among(oid: &[u8], others: &[&[u8]]) -> bool
    ensures { result ≡ contains (oids_from others.now) oid.now }
{
    for other in others {
        if is_same(oid, other) {
            return true;
        }
    }
    false
}

/// Contents of OBJECT IDENTIFIERs, each once. The first 16 take no memory; further ones stand in a tree.
#[derive(Drop)]
pub struct OidSet<'a> {
    few: ArrayVec<&'a [u8], FEW>,
    many: BTreeSet<&'a [u8]>,
}

impl<'a> OidSet<'a> {
    /// The empty set.
    pub fn new(alloc: Global) -> OidSet<'a>
        ensures { oids_in result ≡ empty }
    {
        OidSet {
            few: ArrayVec::new(),
            many: BTreeSet::new(alloc),
        }
    }

    /// Adds one, and answers whether it is new. Time is logarithmic in the size of the set.
    pub fn insert(&mut self, oid: &'a [u8]) -> Result<bool, AllocError>
        ensures new { IfOk result (λ new. new ≡ not (contains (oids_in self.old) oid.now)) }
        ensures added { OnOk result (oids_in self.new ≡ insert (oids_in self.old) oid.now) }
    {
        if is_among(oid, self.few.as_slice()) {
            return Ok(false);
        }
        if self.few.is_full() || !self.many.is_empty() {
            let new = self.many.insert(oid)?;
            return Ok(new);
        }
        self.few.push(oid);
        Ok(true)
    }
}
