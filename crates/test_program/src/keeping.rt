//! A keeper that answers as it was told, files that are not there, and sessions over both.

use cli_failures::{Extent, Failure, Source, StoreRefusal};
use cli_steps::{Believed, End, Keeper, Party, serve};
use path::Query;
use path_search::{Candidate, Search};
use path_verifiers::{ListVerifier, Verifier};
use relying_agreement::Verdict;
use relying_search::{Finding, FindingBudget};
use statements_facts::{Counts, Facts, Profile};
use std::alloc::Global;
use std::io::{Read, Write};
use store_listing::Listing;

/// A keeper that answers so, or refuses.
#[derive(Clone, Copy)]
pub struct Told {
    pub taken: Option<Counts>,
    pub verdict: Option<Verdict>,
    pub may_answer: bool,
}

/// What a store answers that refuses.
const REFUSAL: Failure<'static> = Failure::StoreFailed {
    refusal: StoreRefusal::Store,
};

impl Keeper for Told {
    ghost use Rattle.std.specs.Prelude.{⊤};

    ghost keeps = { λ _ _. ⊤ };

    ghost is_clean = { λ _. ⊥ };

    ghost is_open = { λ _. ⊤ };

    fn take<'a>(&mut self, _facts: &Facts<'_>) -> Result<Counts, Failure<'a>> {
        self.taken.ok_or(REFUSAL)
    }

    fn verdict<'a, V: Verifier>(
        &mut self,
        _alloc: Global,
        _verifier: &V,
        _query: &Query<'_>,
    ) -> Result<Verdict, Failure<'a>> {
        self.verdict.ok_or(REFUSAL)
    }

    fn find<'a, V: Verifier>(
        &mut self,
        alloc: Global,
        _verifier: &V,
        _search: &Search<'_, '_>,
        _budget: FindingBudget,
    ) -> Result<Finding, Failure<'a>> {
        let path = Candidate {
            anchor: 0,
            above: Vec::new(alloc),
        };
        match self.verdict {
            Some(verdict) => Ok(Finding::Found(path, verdict)),
            None => Err(REFUSAL),
        }
    }

    fn list<'a>(&mut self, alloc: Global) -> Result<Listing, Failure<'a>> {
        match self.verdict {
            Some(_) => Ok(Listing {
                issuers: Vec::new(alloc),
                lists: Vec::new(alloc),
                singles: Vec::new(alloc),
            }),
            None => Err(REFUSAL),
        }
    }

    fn may_answer(&mut self) -> bool {
        self.may_answer
    }
}

/// No file is there.
#[derive(Clone, Copy)]
struct Nowhere;

impl Source for Nowhere {
    ghost use Rattle.cli_failures.specs.Failures.{any_file};
    ghost use Rattle.statements_facts.specs.declared.profile.Profile.TheVariants.{Stated};

    ghost holds = { λ _. any_file Stated };

    fn profile(&self) -> Profile {
        Profile::Stated
    }

    fn octets_of<'a>(&self, file: &'a str, _extent: Extent) -> Result<Vec<u8>, Failure<'a>> {
        Err(Failure::Unreadable { file })
    }
}

/// How a session over the keeper ends, which reads these lines and believes nothing at first.
pub fn ends<R: Read, W: Write>(alloc: Global, keeper: Told, input: &mut R, out: &mut W) -> End {
    let mut party = Party {
        believed: Believed::new(alloc, ListVerifier::new(Vec::new(alloc))),
        keeper,
    };
    serve(input, &mut party, &Nowhere, alloc, out)
}

/// A keeper that stores one fact, and knows nothing.
pub fn obliging() -> Told {
    Told {
        taken: Some(Counts {
            stored: 1,
            kept: 0,
            contradicted: 0,
        }),
        verdict: Some(Verdict::Unknown(1)),
        may_answer: true,
    }
}

/// A keeper that refuses.
pub fn refusing(may_answer: bool) -> Told {
    Told {
        taken: None,
        verdict: None,
        may_answer,
    }
}
