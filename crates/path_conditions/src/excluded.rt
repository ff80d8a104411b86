//! Subtrees that are excluded, of which each certificate may add more.

ghost use Rattle.std.specs.Prelude.{◌≡◌, ◌≤◌, ◌++◌, [], length, OnOk, OnErr};
ghost use Rattle.cert.specs.CertificateHosts.{seen_hosts};
ghost use Rattle.names.specs.GeneralView.{general_name};
ghost use Rattle.path_host_constraints.specs.HostConstraints.{Narrows};
ghost use Rattle.path_conditions.specs.Narrowing.{bases_of, is_in_one_of};

use crate::repetition::repeats_end;
use crate::subtree_list::index_of;
use cert::CertificateHosts;
use names::{General, Subtree};
use names_order::Index;
use path_host_constraints::HostConstraints;
use std::alloc::{AllocError, Global};
use std::marker::Model;

/// A list of subtrees with indexes of its parts. Each index is at least twice as long as the next one, so they are few, and a list that
/// grows by many small ones is seldom put in order anew.
#[derive(Drop)]
pub(crate) struct Excluded<'a> {
    items: Vec<Subtree<'a>>,
    indexes: Vec<Index<'a>>,
}

impl<'a> Model for Excluded<'a> {
    ghost use Rattle.std.specs.Prelude.{List};
    ghost use Rattle.std.specs.Coded.{codes};
    ghost use Rattle.names.specs.GeneralLayout.{SubtreeBase};
    ghost use Rattle.names_order.specs.Codes.{rdn_code};
    ghost use Rattle.path_conditions.specs.Narrowing.{bases_of, members_of};
    ghost use Rattle.path_conditions.specs.Repetition.{HoldSameNames};

    ghost Value = { List SubtreeBase };

    ghost coded = { Prim.hlevel (codes, rdn_code) };

    ghost view = { λ s. bases_of s.items.items };

    ghost invariant = { λ s. HoldSameNames (members_of s.indexes.items) (bases_of s.items.items) };
}

/// How many of the indexes are left as they are if so many subtrees come. The others are joined with what comes, from the last one on, until
/// an index is at least twice as long as all that is joined.
fn count_lasting(indexes: &[Index<'_>], coming: usize) -> usize
    ensures { result ≤ length indexes.now }
{
    let mut count = indexes.len();
    let mut behind = coming;
    while count > 0 {
        let last = indexes[count - 1].subtrees().len();
        if last / 2 >= behind {
            return count;
        }
        behind = behind.saturating_add(last);
        count -= 1;
    }
    0
}

impl<'a> Excluded<'a> {
    /// The empty list.
    pub(crate) fn none(alloc: Global) -> Excluded<'a>
        ensures { result ≡ [] }
    {
        Excluded {
            items: Vec::new(alloc),
            indexes: Vec::new(alloc),
        }
    }

    /// Adds subtrees, and narrows the constraints on hosts; or, if memory runs out, neither. Subtrees that were added last and come again are
    /// in an index already.
    pub(crate) fn extend(
        &mut self,
        alloc: Global,
        more: &[Subtree<'a>],
        hosts: &mut HostConstraints<'a>,
        named: &CertificateHosts<'a>,
    ) -> Result<(), AllocError>
        ensures ok { OnOk result (self.new ≡ self.old ++ bases_of more.now) }
        ensures narrowed { OnOk result (Narrows (seen_hosts named.now) hosts.old hosts.new) }
        ensures err { OnErr result (self.new ≡ self.old) }
        ensures unchanged { OnErr result (hosts.new ≡ hosts.old) }
    {
        if repeats_end(&self.items, more) {
            self.items.reserve(more.len())?;
            hosts.narrow(alloc, named)?;
            return match self.items.extend_from_slice(more) {
                Ok(()) => Ok(()),
                Err(_) => unreachable!(),
            };
        }
        let coming = index_of(alloc, more)?;
        let lasting = count_lasting(&self.indexes, more.len());
        let index = Index::joined(alloc, &self.indexes[lasting..], coming)?;
        self.indexes.reserve(1)?;
        self.items.reserve(more.len())?;
        hosts.narrow(alloc, named)?;
        match self.items.extend_from_slice(more) {
            Ok(()) => {}
            Err(_) => unreachable!(),
        }
        self.indexes.truncate(lasting);
        match self.indexes.push(index) {
            Ok(()) => Ok(()),
            Err(_) => unreachable!(),
        }
    }
}

impl Excluded<'_> {
    /// How many there are.
    pub(crate) fn len(&self) -> usize
        ensures { result ≡ length self.now }
    {
        self.items.len()
    }

    /// Whether the name lies in one of them.
    pub(crate) fn covers(&self, name: &General<'_>) -> bool
        ensures { result ≡ is_in_one_of self.now (general_name name.now) }
    {
        self.indexes.iter().any(|index| index.covers(name))
    }
}
