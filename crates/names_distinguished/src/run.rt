//! Attributes whose types ascend.

ghost use Rattle.std.specs.Prelude.{◌≡◌, [], MatchOption, option_map};
ghost use Rattle.names_distinguished.specs.AttributeValue.{compared_value};
ghost use Rattle.names_distinguished.specs.DistinguishedName.{value_at};

use crate::attribute::Attribute;
use crate::kinds::is_kind_before;
use crate::rdn::Rdn;

/// Where the attributes of a run stand: in a set, or in a batch, sorted.
#[derive(Clone, Copy)]
pub(crate) enum Source<'a> {
    Set(Rdn<'a>),
    Batch(&'a [Attribute<'a>]),
}

impl<'a> Source<'a> {
    ghost use Rattle.names_distinguished.specs.Agreement.{entries_in, IsFirstIn};

    /// The first attribute, and those after it.
    #[tactic(auto, unfolding(crate::specs::Agreement::entries_in))]
    fn split_first(&self) -> Option<(Attribute<'a>, Source<'a>)>
        ensures { MatchOption result (entries_in self.now ≡ []) (IsFirstIn self.now) }
    {
        match *self {
            Source::Set(set) => match set.split_first() {
                Some((first, others)) => Some((first, Source::Set(others))),
                None => None,
            },
            Source::Batch(batch) => match batch.split_first() {
                Some((first, others)) => Some((*first, Source::Batch(others))),
                None => None,
            },
        }
    }
}

/// A run, or what is left of it: the next attribute, and those behind it. It ends when the types ascend no more.
#[derive(Clone, Copy)]
pub(crate) struct Run<'a> {
    pub(crate) next: Option<Attribute<'a>>,
    pub(crate) others: Source<'a>,
}

impl<'a> Run<'a> {
    ghost use Rattle.names_distinguished.specs.Agreement.{entries_in, rising, run_of, run_left, SearchesOn, StopsAt, IsFoundPast, FindsAttribute, FindsAll};

    /// The run that the attributes begin with.
    pub(crate) fn first(attributes: Source<'a>) -> Run<'a>
        ensures { run_left result ≡ run_of (entries_in attributes.entry) }
    {
        match attributes.split_first() {
            Some((first, others)) => Run {
                next: Some(first),
                others,
            },
            None => Run {
                next: None,
                others: attributes,
            },
        }
    }

    /// What is left behind the next attribute, which has this type.
    fn behind(self, last: &[u8]) -> Run<'a>
        ensures { run_left result ≡ rising last.now (entries_in self.entry.others) }
    {
        match self.others.split_first() {
            Some((next, others)) => {
                if is_kind_before(last, next.kind) {
                    Run {
                        next: Some(next),
                        others,
                    }
                } else {
                    Run { next: None, others }
                }
            }
            None => Run {
                next: None,
                others: self.others,
            },
        }
    }

    /// This one if the type does not come before the last that was looked for, else the whole run.
    pub(crate) fn going_on(self, whole: Run<'a>, last: &[u8], kind: &[u8]) -> Run<'a>
        requires { SearchesOn last.now (run_left whole) (run_left self) }
        ensures { SearchesOn kind.now (run_left whole.entry) (run_left result) }
    {
        if is_kind_before(kind, last) {
            whole
        } else {
            self
        }
    }

    /// What is left behind the types that come before this one.
    pub(crate) fn past(self, kind: &[u8]) -> Run<'a>
        ensures { IsFoundPast kind.now (run_left self.entry) (run_left result) }
    {
        let mut rest = self;
        while let Some(next) = rest.next {
            if !is_kind_before(next.kind, kind) {
                return rest;
            }
            rest = rest.behind(next.kind);
        }
        rest
    }

    /// The next attribute, if it has the type.
    pub(crate) fn of_kind(&self, kind: &[u8]) -> Option<Attribute<'a>>
        requires { StopsAt kind.now (run_left self.now) }
        ensures { option_map compared_value result ≡ value_at kind.now (run_left self.now) }
    {
        let Some(next) = self.next else {
            return None;
        };
        if next.kind == kind { Some(next) } else { None }
    }

    /// 1 if the next has the type and the value of this attribute, 0 if it has another type; `None` if it has another
    /// value of that type.
    fn finds(&self, attribute: &Attribute<'_>) -> Option<usize>
        requires { StopsAt attribute.now.kind.now (run_left self.now) }
        ensures { FindsAttribute self.now attribute.now result }
    {
        match self.of_kind(attribute.kind) {
            Some(found) => {
                if found.same_value(attribute) {
                    Some(1)
                } else {
                    None
                }
            }
            None => Some(0),
        }
    }

    /// How many attributes of the set have a type of this run; `None` if one has another value than the run's. It is one
    /// walk over the set, in which the run is looked through once for each run of the set.
    pub(crate) fn count_in(&self, set: &Rdn<'_>) -> Option<usize>
        ensures { FindsAll self.now set.now result }
    {
        let mut rest = *set;
        let mut left = *self;
        let mut last: &[u8] = &[];
        let mut count = 0;
        while let Some((attribute, after)) = rest.split_first() {
            left = left
                .going_on(*self, last, attribute.kind)
                .past(attribute.kind);
            match left.finds(&attribute) {
                Some(found) => count += found,
                None => return None,
            }
            last = attribute.kind;
            rest = after;
        }
        Some(count)
    }
}
