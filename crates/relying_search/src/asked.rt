//! The valid paths that were asked about.

ghost use Rattle.std.specs.Prelude.{◌≡◌, ◌≢◌, ◌↔◌, None, Some, IfNone, IfOk, IfSome, IsTrue};
ghost use Rattle.std.specs.Option.{option_or};
ghost use Rattle.path_search.specs.Answer.{seen_candidate};
ghost use Rattle.relying_agreement.specs.declared.verdict.Verdict.TheVariants.{Valid};
ghost use Rattle.relying_search.specs.Asked.{Ends, EndsBehind, FoundBehind, IsPath, Notes, StandsFirst, WasAsked, found_first};
ghost use Rattle.relying_search.specs.Finding.{seen_finding};

use crate::finding::Finding;
use path_search::{Answer, Candidate, Paths, search_laws};
use relying_agreement::{Verdict, verdict_laws};
use std::alloc::{AllocError, Global};

/// The valid paths that were asked about so far. None of them has the verdict `Valid`.
#[derive(Drop)]
pub struct Asked {
    /// The first of them, with its verdict.
    pub first: Option<(Candidate, Verdict)>,
}

/// Whether the verdict is `Valid`.
fn is_valid(verdict: Verdict) -> bool
    ensures { IsTrue result ↔ (verdict ≡ Valid) }
{
    verdict == Verdict::Valid
}

/// What is found, if this is the first valid path and none has the verdict `Valid`.
fn found_first(first: Option<(Candidate, Verdict)>) -> Finding
    ensures { seen_finding result ≡ found_first first }
{
    match first {
        None => Finding::NotFound,
        Some((path, verdict)) => Finding::Found(path, verdict),
    }
}

impl Asked {
    /// None was asked about.
    pub fn none() -> Asked
        ensures empty { result.first ≡ None }
        ensures stands { StandsFirst result }
    {
        Asked { first: None }
    }

    /// Keeps the path, if it is the first.
    fn keep(&mut self, path: Candidate, verdict: Verdict)
        ensures { self.new.first ≡ option_or self.old.first (Some (path, verdict)) }
    {
        self.first = self.first.take().or(Some((path, verdict)));
    }

    /// Notes the next valid path with its verdict; if that is `Valid`, the search ends with it.
    pub fn note(&mut self, path: Candidate, verdict: Verdict) -> Option<Finding>
        ensures notes { Notes self.old self.new (seen_candidate path) verdict result }
        ensures asked { IfNone result (self.new.first ≢ None) }
        ensures path { IfSome result IsPath }
    {
        search_laws();
        verdict_laws();
        if is_valid(verdict) {
            return Some(Finding::Found(path, verdict));
        }
        self.keep(path, verdict);
        None
    }

    /// What is found if no further path is valid.
    pub fn end(&mut self) -> Finding
        ensures ends { Ends self.old result }
        ensures asked { WasAsked self.old result }
    {
        search_laws();
        verdict_laws();
        found_first(self.first.take())
    }

    /// What is found if no further path may be asked about.
    pub fn end_behind(
        &mut self,
        alloc: Global,
        paths: &mut Paths<'_, '_, '_>,
    ) -> Result<Finding, AllocError>
        ensures ends { IfOk result (EndsBehind paths.old self.old) }
        ensures asked { IfOk result (FoundBehind paths.old self.old) }
    {
        match paths.next(alloc)? {
            Answer::NotFound => Ok(self.end()),
            Answer::Found(_) => Ok(Finding::GaveUp),
            Answer::GaveUp => Ok(Finding::GaveUp),
        }
    }
}
