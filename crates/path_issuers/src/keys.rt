//! Names as numbers.

ghost use Rattle.std.specs.Prelude.{◌≡◌, ◌≤◌, IfOk, OnOk, vec_len};
ghost use Rattle.std.specs.List.Sorted.{IsPermutation, IsSortedBy};
ghost use Rattle.std.proofs.Props.{props};
ghost use Rattle.names.specs.NameKey.{name_key};
ghost use Rattle.names.specs.NameOctets.{rdns_of};
ghost use Rattle.path_issuers.specs.Keys.{comes_before, number_of};

use names::Name;
use std::alloc::{AllocError, Global};

/// Keys of names, in order. The number of a name is how many of them come before its own, so names that match have one number.
#[derive(Drop)]
pub(crate) struct Keys {
    sorted: Vec<Vec<u8>>,
    ghost rising: { IsSortedBy comes_before sorted.items } by { Prim.hlevel props },
}

impl Keys {
    /// Puts keys in order.
    pub(crate) fn new(keys: Vec<Vec<u8>>) -> Result<Keys, AllocError>
        ensures { IfOk result (λ made. IsPermutation keys.items made.sorted.items) }
    {
        let mut sorted = keys;
        sorted.sort()?;
        Ok(Keys { sorted })
    }

    /// How many there are.
    pub(crate) fn count(&self) -> usize
        ensures { result ≡ vec_len self.now.sorted }
    {
        self.sorted.len()
    }

    /// How many of the keys come before another.
    fn count_before(&self, key: &[u8]) -> usize
        ensures number { result ≡ number_of self.now.sorted.items key.now }
        ensures within { result ≤ vec_len self.now.sorted }
    {
        self.sorted
            .partition_point(|other| other.as_slice().cmp(key).is_lt())
    }

    /// The number of a name.
    pub(crate) fn number_of(&self, alloc: Global, name: &Name<'_>) -> Result<usize, AllocError>
        ensures number { IfOk result (λ number.
            number ≡ number_of self.now.sorted.items (name_key (rdns_of name.now))) }
        ensures within { IfOk result (λ number. number ≤ vec_len self.now.sorted) }
    {
        let key = name.key(alloc)?;
        Ok(self.count_before(&key))
    }
}
