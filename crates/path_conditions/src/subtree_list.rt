//! Lists of subtrees in which names are found by halving.

ghost use Rattle.std.specs.Prelude.{◌≡◌, ◌++◌, length, IfOk};
ghost use Rattle.names.specs.GeneralView.{general_name, subtree_base};
ghost use Rattle.names_order.specs.Index.{HasSameMembers};
ghost use Rattle.path_conditions.specs.Narrowing.{bases_of, is_in_one_of, is_inside_one_of};

use names::{General, Subtree};
use names_order::Index;
use std::alloc::{AllocError, Global};
use std::marker::Model;

/// A list of subtrees, with an index of them.
#[derive(Drop)]
pub(crate) struct SubtreeList<'a> {
    items: Vec<Subtree<'a>>,
    index: Index<'a>,
}

impl<'a> Model for SubtreeList<'a> {
    ghost use Rattle.std.specs.Prelude.{List};
    ghost use Rattle.std.specs.Coded.{codes};
    ghost use Rattle.names.specs.GeneralLayout.{SubtreeBase};
    ghost use Rattle.names_order.specs.Codes.{rdn_code};
    ghost use Rattle.names_order.specs.Index.{HasSameMembers};
    ghost use Rattle.path_conditions.specs.Narrowing.{bases_of};

    ghost Value = { List SubtreeBase };

    ghost coded = { Prim.hlevel (codes, rdn_code) };

    ghost view = { λ s. bases_of s.items.items };

    ghost invariant = { λ s. HasSameMembers s.index (bases_of s.items.items) };
}

/// An index of the subtrees.
pub(crate) fn index_of<'a>(alloc: Global, list: &[Subtree<'a>]) -> Result<Index<'a>, AllocError>
    ensures { IfOk result (λ index. HasSameMembers index (bases_of list.now)) }
{
    let mut copy = Vec::new(alloc);
    copy.extend_from_slice(list)?;
    Index::of(alloc, copy)
}

impl<'a> SubtreeList<'a> {
    /// The list of these subtrees.
    pub(crate) fn of(alloc: Global, items: Vec<Subtree<'a>>) -> Result<SubtreeList<'a>, AllocError>
        ensures { IfOk result (λ list. list ≡ bases_of items.entry.items) }
    {
        let index = index_of(alloc, &items)?;
        Ok(SubtreeList { items, index })
    }

    /// The list of one part, of which there is an index, and another.
    pub(crate) fn joined(
        alloc: Global,
        front: Vec<Subtree<'a>>,
        front_index: &Index<'a>,
        back: &[Subtree<'a>],
    ) -> Result<SubtreeList<'a>, AllocError>
        requires { HasSameMembers front_index.now (bases_of front.items) }
        ensures { IfOk result (λ list. list ≡ bases_of front.entry.items ++ bases_of back.now) }
    {
        let index = front_index.with(alloc, back)?;
        let mut items = front;
        items.extend_from_slice(back)?;
        Ok(SubtreeList { items, index })
    }
}

impl<'a> SubtreeList<'a> {
    /// The subtrees, in their order.
    pub(crate) fn items(&self) -> &[Subtree<'a>]
        ensures { bases_of result.now ≡ self.now }
    {
        &self.items
    }

    /// An index of the subtrees.
    pub(crate) fn index(&self) -> &Index<'a>
        ensures { HasSameMembers result.now self.now }
    {
        &self.index
    }

    /// How many there are.
    pub(crate) fn len(&self) -> usize
        ensures { result ≡ length self.now }
    {
        self.items.len()
    }

    /// Whether the name lies in one of them.
    pub(crate) fn covers(&self, name: &General<'_>) -> bool
        ensures { result ≡ is_in_one_of self.now (general_name name.now) }
    {
        self.index.covers(name)
    }
}
