//! Attributes of many short runs, sorted by their types without memory.

ghost use Rattle.std.specs.Prelude.{◌≡◌, ◌≤◌, [], ◌∷◌, map, drop, length, false, IsTrue};
ghost use Rattle.names_distinguished.specs.Batch.{is_ascending, StartsApart};
ghost use Rattle.names_distinguished.specs.AttributeOrder.{IsPlaceAmong};
ghost use Rattle.names_distinguished.specs.NameView.{entry_of};

use crate::attribute::Attribute;
use crate::kinds::{Kinds, is_kind_before};
use crate::rdn::Rdn;
use crate::run::{Run, Source};
use arrayvec::ArrayVec;

/// How many attributes a batch has at most.
pub(crate) const MOST: usize = 256;

/// Attributes in the order of their types, of no two of one type. They stand on the stack, 40 octets each.
#[derive(Drop)]
pub(crate) struct Batch<'a> {
    pub(crate) attributes: ArrayVec<Attribute<'a>, MOST>,
    pub ghost ascends: { IsTrue (is_ascending (map entry_of attributes.items)) },
}

/// The place of the type among attributes that ascend: as many come before it.
fn place_of(sorted: &[Attribute<'_>], kind: &[u8]) -> usize
    ensures within { result ≤ length sorted.now }
    ensures place { IsPlaceAmong sorted.now kind.now result }
{
    for (place, attribute) in sorted.iter().enumerate() {
        if !is_kind_before(attribute.kind, kind) {
            return place;
        }
    }
    sorted.len()
}

/// Whether no attribute of the type stands at the place.
fn is_free(sorted: &[Attribute<'_>], place: usize, kind: &[u8]) -> bool
    ensures { IsTrue result → StartsApart kind.now (map entry_of (drop place sorted.now)) }
{
    if place < sorted.len() {
        sorted[place].kind != kind
    } else {
        true
    }
}

impl<'a> Batch<'a> {
    ghost use Rattle.names_distinguished.specs.Agreement.{run_left};
    ghost use Rattle.names_distinguished.specs.Batch.{IsBatchOf};
    ghost use Rattle.names_distinguished.specs.BatchView.{batched, IsAddedTo, IsFrontBatch};
    ghost use Rattle.names_distinguished.specs.Repetition.{kinds_of};

    /// A batch of no attributes.
    fn empty() -> Batch<'a>
        ensures { batched result ≡ [] }
    {
        Batch {
            attributes: ArrayVec::new(),
        }
    }

    /// A batch of this one.
    fn of_one(attribute: Attribute<'a>) -> Batch<'a>
        ensures { batched result ≡ entry_of attribute.entry ∷ [] }
    {
        let mut attributes = ArrayVec::new();
        attributes.push(attribute);
        Batch { attributes }
    }

    /// Adds the attribute, and answers whether it did: there has to be room, and no attribute of the type.
    fn add(&mut self, attribute: Attribute<'a>) -> bool
        ensures added { IsTrue result → IsAddedTo attribute.entry self.old self.new }
        ensures same { result ≡ false → batched self.new ≡ batched self.old }
    {
        let place = place_of(self.attributes.as_slice(), attribute.kind);
        if self.attributes.is_full()
            || !is_free(self.attributes.as_slice(), place, attribute.kind)
        {
            return false;
        }
        self.attributes.insert(place, attribute);
        true
    }

    /// The first types from here, at most so many, without values; and the offset of the first that is not among them.
    pub(crate) fn of_kinds(kinds: Kinds<'a>, most: usize) -> (Batch<'a>, usize)
        ensures { IsBatchOf (kinds_of kinds.entry) result.1 (batched result.0) }
    {
        let mut batch = Batch::empty();
        let mut rest = kinds;
        while let Some(next) = rest.next() {
            if batch.attributes.len() >= most {
                return (batch, next.at);
            }
            if !batch.add(Attribute::of_type(next.kind)) {
                return (batch, next.at);
            }
        }
        (batch, usize::MAX)
    }

    /// This attribute and as many of those behind it in its set as there is room for; and those that are not among them.
    pub(crate) fn of_set(first: Attribute<'a>, others: Rdn<'a>) -> (Batch<'a>, Rdn<'a>)
        ensures { IsFrontBatch first.entry others.entry result.0 result.1 }
    {
        let mut batch = Batch::of_one(first);
        let mut rest = others;
        while let Some((attribute, after)) = rest.split_first() {
            if !batch.add(attribute) {
                return (batch, rest);
            }
            rest = after;
        }
        (batch, rest)
    }

    /// All of it, as a run.
    pub(crate) fn run(&self) -> Run<'_>
        ensures { run_left result ≡ batched self.now }
    {
        Run::first(Source::Batch(self.attributes.as_slice()))
    }
}
