//! Questions to a verifier, of which a number is left.

ghost use Rattle.std.specs.Prelude.{◌≡◌, ◌↔◌, ◌++◌, ◌∷◌, [], if◌then◌else◌, IfOk, IfSome, IsTrue, OnOk, length};
ghost use Rattle.path_issuers.specs.Asking.{ArePicked, IsSought, IsWithin, question_about};
ghost use Rattle.path_issuers.specs.Questions.{IsAnsweredYes};
ghost use Rattle.path_issuers.specs.View.{seen_search};

use crate::alone::issues;
use crate::question::{Issuer, SearchQuestion};
use crate::search::Search;
use path_verifiers::Verifier;
use std::alloc::{AllocError, Global};

/// What is looked for among certificates whose names match.
#[derive(Clone, Copy)]
pub enum Sought {
    /// The anchors that issued the certificate at the place.
    AnchorsOf(usize),
    /// The certificates that the one at the place of the bag issued.
    IssuedBy(usize),
}

impl Sought {
    /// The question about the one at a place.
    pub fn question(self, place: usize) -> SearchQuestion
        ensures { result ≡ question_about self place }
    {
        match self {
            Sought::AnchorsOf(certificate) => SearchQuestion {
                issuer: Issuer::Anchor(place),
                certificate,
            },
            Sought::IssuedBy(issuer) => SearchQuestion {
                issuer: Issuer::Bag(issuer),
                certificate: place,
            },
        }
    }
}

/// Asks whether the issuer issued the certificate. `None` if no question is left.
fn ask<V: Verifier>(
    verifier: &V,
    search: &Search<'_, '_>,
    left: &mut usize,
    question: SearchQuestion,
) -> Option<bool>
    ensures answer { IfSome result (λ answer. IsTrue answer
        ↔ IsAnsweredYes (V.accepts verifier.now) (seen_search search.now) question) }
    ensures spent { IsWithin 1 left.old left.new result }
{
    if *left == 0 {
        return None;
    }
    *left -= 1;
    let issuer = search.issuer_at(question.issuer);
    let certificate = search.certificate_at(question.certificate);
    Some(issues(verifier, issuer, certificate))
}

/// Adds a place if it passes a test.
pub fn add_if(picked: &mut Vec<usize>, place: usize, passes: bool) -> Result<(), AllocError>
    ensures { OnOk result (picked.new.items
        ≡ (if passes then picked.old.items ++ place ∷ [] else picked.old.items)) }
{
    if passes {
        picked.push(place)?;
    }
    Ok(())
}

/// Of places, those that are sought. `None` if the questions that are left do not suffice.
pub fn pick<V: Verifier>(
    alloc: Global,
    verifier: &V,
    search: &Search<'_, '_>,
    left: &mut usize,
    sought: Sought,
    places: &[usize],
) -> Result<Option<Vec<usize>>, AllocError>
    ensures picked { IfOk result (λ found. IfSome found (λ picked.
        ArePicked (IsSought (V.accepts verifier.now) (seen_search search.now) sought)
        places.now picked.items)) }
    ensures spent { IfOk result (λ found. IsWithin (length places.now) left.old left.new found) }
{
    let mut picked = Vec::new(alloc);
    for place in places {
        let Some(issued) = ask(verifier, search, left, sought.question(*place)) else {
            return Ok(None);
        };
        add_if(&mut picked, *place, issued)?;
    }
    Ok(Some(picked))
}
