//! The valid paths that were asked about.

ghost use Rattle.std.specs.Prelude.{◌≡◌, ◌↔◌, None, IfOk, IsTrue};
ghost use Rattle.std.specs.Option.{option_or};
ghost use Rattle.relying_agreement.specs.declared.verdict.Verdict.TheVariants.{Valid};
ghost use Rattle.relying_search.specs.Asked.{found_first};
ghost use Rattle.relying_search.specs.Finding.{seen_finding};
ghost use Rattle.relying_search.specs.AskedAmong.{EndsAfter, Notes};

use crate::finding::Finding;
use path_search::{Answer, Candidate, Paths};
use relying_agreement::Verdict;
use std::alloc::{AllocError, Global};

/// The valid paths that were asked about so far. None of them counts and has the verdict `Valid`.
#[derive(Drop)]
pub struct AskedAmong {
    /// The first of them that counts, with its verdict.
    pub first: Option<(Candidate, Verdict)>,
}

/// Whether the verdict is `Valid`.
fn is_valid(verdict: Verdict) -> bool
    ensures { IsTrue result ↔ (verdict ≡ Valid) }
{
    verdict == Verdict::Valid
}

/// What is found, if this is the first path that counts and none has the verdict `Valid`.
fn found_first(first: Option<(Candidate, Verdict)>) -> Finding
    ensures { seen_finding result ≡ found_first first }
{
    match first {
        None => Finding::NotFound,
        Some((path, verdict)) => Finding::Found(path, verdict),
    }
}

impl AskedAmong {
    /// None was asked about.
    pub fn none() -> AskedAmong
        ensures { result.first ≡ None }
    {
        AskedAmong { first: None }
    }

    /// Keeps the path, if it is the first.
    fn keep(&mut self, path: Candidate, verdict: Verdict)
        ensures { self.new.first ≡ option_or self.old.first (Some (path, verdict)) }
    {
        self.first = self.first.take().or(Some((path, verdict)));
    }

    /// Notes the next path that counts, with its verdict; if that is `Valid`, the search ends with it.
    pub fn note(&mut self, path: Candidate, verdict: Verdict) -> Option<Finding>
        ensures { Notes self.old self.new path verdict result }
    {
        if is_valid(verdict) {
            return Some(Finding::Found(path, verdict));
        }
        self.keep(path, verdict);
        None
    }

    /// What is found if no further path is valid.
    pub fn end(&mut self) -> Finding
        ensures { seen_finding result ≡ found_first self.old.first }
    {
        found_first(self.first.take())
    }

    /// What is found if no further path may be asked about.
    pub fn end_behind(
        &mut self,
        alloc: Global,
        paths: &mut Paths<'_, '_, '_>,
    ) -> Result<Finding, AllocError>
        ensures { IfOk result (EndsAfter paths.old self.old) }
    {
        match paths.next(alloc)? {
            Answer::NotFound => Ok(self.end()),
            Answer::Found(_) => Ok(Finding::GaveUp),
            Answer::GaveUp => Ok(Finding::GaveUp),
        }
    }
}
