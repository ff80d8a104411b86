//! Relative distinguished names (X.501, 9.3): sets of attributes.

ghost use Rattle.std.specs.Prelude.{◌≡◌, ◌↔◌, ◌++◌, [], IsTrue, IfSome, MatchOption, length, map, option_map};
ghost use Rattle.names_distinguished.specs.AttributeValue.{compared_value};
ghost use Rattle.names_distinguished.specs.DistinguishedName.{value_at};
ghost use Rattle.asn.specs.Reading.{left};
ghost use Rattle.names_distinguished.specs.NameParts.{AreAttributes, are_distinct, entry_at};

use crate::attribute::{Attribute, AttributeMembers};
use crate::batch::{Batch, MOST};
use crate::kinds::is_kind_before;
use crate::run::{Run, Source};
use asn::Cursor;

/// Sets of fewer attributes are compared without a batch.
const FEW: usize = 64;

/// A set of attributes, or those of it that have not been looked at yet.
#[derive(Clone, Copy)]
pub(crate) struct Rdn<'a> {
    pub(crate) attributes: Cursor<'a>,
    pub ghost read: { ∥ AreAttributes (left attributes).values ∥₁ },
    pub ghost distinct: { IsTrue (are_distinct (map entry_at (left attributes).values)) },
}

impl<'a> Rdn<'a> {
    ghost use Rattle.names_distinguished.specs.NameView.{entries_of, map_of, IsFirstAttribute, AgreeOnFirst};
    ghost use Rattle.names_distinguished.specs.Agreement.{run_of};
    ghost use Rattle.names_distinguished.specs.BatchView.{CountsFront};

    /// The first attribute, and those after it.
    #[tactic(auto, unfolding(crate::specs::NameView::entries_of))]
    pub(crate) fn split_first(&self) -> Option<(Attribute<'a>, Rdn<'a>)>
        ensures { MatchOption result (entries_of self.now ≡ []) (IsFirstAttribute self.now) }
    {
        let mut attributes = self.attributes;
        let attribute = attributes.next()?;
        match AttributeMembers::read(attribute) {
            Ok(members) => Some((members.attribute(), Rdn { attributes })),
            Err(_) => unreachable!(),
        }
    }

    /// The first attribute of the type, whose object identifier has these contents.
    pub(crate) fn of_kind(&self, kind: &[u8]) -> Option<Attribute<'a>>
        ensures { option_map compared_value result ≡ value_at kind.now (entries_of self.now) }
    {
        let mut rest = *self;
        while let Some((attribute, after)) = rest.split_first() {
            if kind == attribute.kind {
                return Some(attribute);
            }
            rest = after;
        }
        None
    }

    /// How many attributes the set has.
    fn count(&self) -> usize
        ensures { result ≡ length (entries_of self.now) }
    {
        let mut count = 0;
        let mut rest = *self;
        while let Some((_, after)) = rest.split_first() {
            count += 1;
            rest = after;
        }
        count
    }

    /// What is behind the run that the set begins with.
    fn behind_run(&self) -> Rdn<'a>
        ensures { entries_of self.now ≡ run_of (entries_of self.now) ++ entries_of result }
    {
        let Some((first, others)) = self.split_first() else {
            return *self;
        };
        let mut last = first.kind;
        let mut rest = others;
        while let Some((next, after)) = rest.split_first() {
            if !is_kind_before(last, next.kind) {
                return rest;
            }
            last = next.kind;
            rest = after;
        }
        rest
    }

    /// Whether the set begins with a run as long as a batch, or is one run.
    fn begins_with_long_run(&self) -> bool {
        let mut rest = *self;
        let mut last: &[u8] = &[];
        for _ in 0..MOST {
            match rest.split_first() {
                Some((next, after)) if is_kind_before(last, next.kind) => {
                    last = next.kind;
                    rest = after;
                }
                Some(_) => return false,
                None => return true,
            }
        }
        true
    }

    /// How many attributes of the other set have a type of the run that this set begins with, and what is behind the run; `None`
    /// if one has another value.
    fn count_run(&self, other: &Rdn<'_>) -> Option<(usize, Rdn<'a>)>
        requires { ¬ (entries_of self.now ≡ []) }
        ensures { CountsFront self.now other.now result }
    {
        let behind = self.behind_run();
        match Run::first(Source::Set(*self)).count_in(other) {
            Some(count) => Some((count, behind)),
            None => None,
        }
    }

    /// The same of the batch that this set begins with.
    #[inline(never)]
    fn count_batch(&self, other: &Rdn<'_>) -> Option<(usize, Rdn<'a>)>
        requires { ¬ (entries_of self.now ≡ []) }
        ensures { CountsFront self.now other.now result }
    {
        let Some((first, others)) = self.split_first() else {
            unreachable!();
        };
        let (batch, behind) = Batch::of_set(first, others);
        match batch.run().count_in(other) {
            Some(count) => Some((count, behind)),
            None => None,
        }
    }

    /// The same of a run, if it is long or the sets have few attributes, and else of a batch.
    fn count_front(&self, other: &Rdn<'_>, few: bool) -> Option<(usize, Rdn<'a>)>
        requires { ¬ (entries_of self.now ≡ []) }
        ensures { CountsFront self.now other.now result }
    {
        if few || self.begins_with_long_run() {
            self.count_run(other)
        } else {
            self.count_batch(other)
        }
    }

    /// Whether two sets have the same value, or both none, of each type that this set has: as many of its attributes have a type
    /// of the other set as it has.
    fn agrees_on_its_own(&self, other: &Rdn<'_>) -> bool
        ensures { IsTrue result ↔ AgreeOnFirst self.now other.now }
    {
        let count = self.count();
        let mut rest = *other;
        let mut found = 0;
        while let Some((_, _)) = rest.split_first() {
            match rest.count_front(self, count < FEW) {
                Some((more, behind)) => {
                    found += more;
                    rest = behind;
                }
                None => return false,
            }
        }
        found == count
    }

    /// Whether the sets are one map, if one walk over both at once can tell; `None` if it meets different types.
    fn matches_in_order(&self, other: &Rdn<'_>) -> Option<bool>
        ensures { IfSome result (λ same. IsTrue same ↔ (map_of self.now ≡ map_of other.now)) }
    {
        let mut left = *self;
        let mut right = *other;
        while let Some((one, left_rest)) = left.split_first() {
            let Some((two, right_rest)) = right.split_first() else {
                return Some(false);
            };
            if one.kind != two.kind {
                return None;
            }
            if !one.same_value(&two) {
                return Some(false);
            }
            left = left_rest;
            right = right_rest;
        }
        match right.split_first() {
            Some(_) => Some(false),
            None => Some(true),
        }
    }

    /// Whether the sets are one map from types to values as they are compared. Sets with the same octets are not looked into. Where their
    /// types are in one order, this takes one walk over both; else one over this set for each long run and each batch of the other.
    pub(crate) fn matches(&self, other: &Rdn<'_>) -> bool
        ensures { IsTrue result ↔ (map_of self.now ≡ map_of other.now) }
    {
        if self.attributes.octets() == other.attributes.octets() {
            return true;
        }
        match self.matches_in_order(other) {
            Some(same) => same,
            None => self.count() == other.count() && self.agrees_on_its_own(other),
        }
    }
}
