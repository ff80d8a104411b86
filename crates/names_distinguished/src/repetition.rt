//! How far an RDN is known to repeat no type.
//!
//! A *run* is a stretch of attributes whose types ascend. As the attributes of one size stand together, ordered by their
//! types, an RDN has no more runs than sizes. The types of a run are compared with all earlier ones in one walk over these, with a
//! pointer into the run that moves on while the earlier ones ascend. The attributes of short runs go into a batch, which is
//! sorted and then compared in the same way.

ghost use Rattle.std.specs.Prelude.{◌≡◌, IsTrue};
ghost use Rattle.names_distinguished.specs.Batch.{NoneBefore};
ghost use Rattle.names_distinguished.specs.BatchView.{batched};
ghost use Rattle.names_distinguished.specs.Repetition.{kinds_of, pointed, Ascends, IsPast, GoesOnFrom, IsLimitBefore, IsRest, AreNew};

use crate::batch::{Batch, MOST};
use crate::kinds::{Kinds, PlacedKind, is_kind_before};

/// So many octets are walked over sooner than a batch is sorted.
const FEW_OCTETS: usize = 1024;

/// A place in a run: the next type, and those after it.
#[derive(Clone, Copy)]
struct Pointer<'a> {
    next: Option<PlacedKind<'a>>,
    others: Kinds<'a>,
}

impl<'a> Pointer<'a> {
    /// The first type of the run.
    #[tactic(auto, unfolding(crate::specs::Repetition::pointed))]
    fn first(run: Kinds<'a>) -> Pointer<'a>
        ensures { pointed result ≡ kinds_of run.entry }
    {
        let mut others = run;
        let next = others.next();
        Pointer { next, others }
    }

    /// This place if the type does not come before the last that was looked for, else the first of the run.
    fn going_on(self, run: Kinds<'a>, last: &[u8], kind: &[u8]) -> Pointer<'a>
        ensures { GoesOnFrom last.now kind.now run.entry self.entry result }
    {
        if is_kind_before(kind, last) {
            Pointer::first(run)
        } else {
            self
        }
    }

    /// The first place from here that is at the limit, or whose type does not come before this one.
    fn past(self, kind: &[u8], limit: usize) -> Pointer<'a>
        ensures { IsPast kind.now limit (pointed self.entry) (pointed result) }
    {
        let mut pointer = self;
        while let Some(next) = pointer.next {
            if next.at >= limit {
                return pointer;
            }
            if !is_kind_before(next.kind, kind) {
                return pointer;
            }
            pointer = Pointer::first(pointer.others);
        }
        pointer
    }

    /// The limit, or this place if it has the type.
    fn limit_before(self, kind: &[u8], limit: usize) -> usize
        ensures { IsLimitBefore kind.now limit (pointed self.entry) result }
    {
        let Some(next) = self.next else {
            return limit;
        };
        if next.at >= limit {
            return limit;
        }
        if next.kind == kind { next.at } else { limit }
    }
}

/// Where the run ends that begins with the first of these.
fn end_of_run(kinds: Kinds<'_>) -> usize
    ensures { Ascends result (kinds_of kinds.entry) }
{
    let mut rest = kinds;
    let Some(first) = rest.next() else {
        return usize::MAX;
    };
    let mut last = first.kind;
    while let Some(next) = rest.next() {
        if !is_kind_before(last, next.kind) {
            return next.at;
        }
        last = next.kind;
    }
    usize::MAX
}

/// An offset: those of the run, which begins at `start`, that stand before it have types that no earlier attribute has. It is
/// where the run ends, or where it repeats a type for the first time.
fn new_in_run(all: Kinds<'_>, run: Kinds<'_>, start: usize) -> usize
    requires { IsRest (kinds_of all) (kinds_of run) start }
    ensures { AreNew (kinds_of all.entry) result (kinds_of run.entry) }
{
    let mut limit = end_of_run(run);
    let mut pointer = Pointer::first(run);
    let mut last: &[u8] = &[];
    let mut earlier = all;
    while let Some(one) = earlier.next() {
        if one.at >= start {
            return limit;
        }
        pointer = pointer.going_on(run, last, one.kind).past(one.kind, limit);
        limit = pointer.limit_before(one.kind, limit);
        last = one.kind;
    }
    limit
}

/// Whether the types of a batch are known to be none of those that stand before the offset.
fn is_apart(batch: &Batch<'_>, all: Kinds<'_>, start: usize) -> bool
    ensures { IsTrue result → NoneBefore start (batched batch.now) (kinds_of all.entry) }
{
    let run = batch.run();
    let mut left = run;
    let mut last: &[u8] = &[];
    let mut earlier = all;
    while let Some(one) = earlier.next() {
        if one.at >= start {
            return true;
        }
        left = left.going_on(run, last, one.kind).past(one.kind);
        if left.of_kind(one.kind).is_some() {
            return false;
        }
        last = one.kind;
    }
    true
}

/// As `new_until`, for the first types from here, whatever their order. Where some of them repeat earlier ones, half as many
/// are tried, and so on.
#[inline(never)]
fn new_in_batch(all: Kinds<'_>, rest: Kinds<'_>, start: usize) -> usize
    requires { IsRest (kinds_of all) (kinds_of rest) start }
    ensures { AreNew (kinds_of all.entry) result (kinds_of rest.entry) }
{
    let mut most = MOST;
    while most > 0 {
        let (batch, limit) = Batch::of_kinds(rest, most);
        if is_apart(&batch, all, start) {
            return limit;
        }
        most /= 2;
    }
    0
}

/// Whether the types from here on ascend for a whole batch.
fn is_long_run(kinds: Kinds<'_>) -> bool {
    let mut rest = kinds;
    let mut last: &[u8] = &[];
    for _ in 0..MOST {
        match rest.next() {
            Some(next) if is_kind_before(last, next.kind) => last = next.kind,
            Some(_) => return false,
            None => return true,
        }
    }
    true
}

/// An offset: those from `start` on that stand before it have types that no earlier attribute has. Long runs are looked at one by
/// one, and the types of short ones in batches, so that each walk over the earlier attributes serves as many types as a batch has.
pub(crate) fn new_until(all: Kinds<'_>, rest: Kinds<'_>, start: usize) -> usize
    requires { IsRest (kinds_of all) (kinds_of rest) start }
    ensures { AreNew (kinds_of all.entry) result (kinds_of rest.entry) }
{
    let earlier = start.saturating_sub(all.attributes.at());
    if earlier < FEW_OCTETS || is_long_run(rest) {
        new_in_run(all, rest, start)
    } else {
        new_in_batch(all, rest, start)
    }
}
