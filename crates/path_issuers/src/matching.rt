//! Which questions a search may ask: those about certificates whose names match, and that lead to the target by names.

ghost use Rattle.std.specs.Prelude.{◌≡◌, ◌+◌, ◌++◌, IfOk, OnOk, map};
ghost use Rattle.std.specs.List.{AllPairs};
ghost use Rattle.path_issuers.specs.Asking.{about_anchors, about_issued, joined_below, question_about};
ghost use Rattle.path_issuers.specs.Questions.{AreSearchQuestions, IsAskedBefore, QuestionsSuffice};
ghost use Rattle.path_issuers.specs.View.{seen_search};

use crate::asking::Sought;
use crate::naming::Naming;
use crate::question::SearchQuestion;
use crate::search::Search;
use std::alloc::{AllocError, Global};

/// Adds the question about each of the places.
fn add_each(
    questions: &mut Vec<SearchQuestion>,
    sought: Sought,
    places: &[usize],
) -> Result<(), AllocError>
    ensures { OnOk result (questions.new.items
        ≡ questions.old.items ++ map (question_about sought) places.now) }
{
    for place in places {
        questions.push(sought.question(*place))?;
    }
    Ok(())
}

/// Adds the questions about certificates and anchors.
fn add_about_anchors(
    questions: &mut Vec<SearchQuestion>,
    naming: &Naming,
    count: usize,
) -> Result<(), AllocError>
    ensures { OnOk result (questions.new.items
        ≡ questions.old.items ++ joined_below (about_anchors naming.now) count) }
{
    for below in 0..count {
        let places = naming.anchors_naming(below);
        add_each(questions, Sought::AnchorsOf(below), places)?;
    }
    Ok(())
}

/// Adds the questions about certificates and those of the bag.
fn add_about_issued(
    questions: &mut Vec<SearchQuestion>,
    naming: &Naming,
    count: usize,
) -> Result<(), AllocError>
    ensures { OnOk result (questions.new.items
        ≡ questions.old.items ++ joined_below (about_issued naming.now) count) }
{
    for place in 0..count {
        let places = naming.named_by(place);
        add_each(questions, Sought::IssuedBy(place), places)?;
    }
    Ok(())
}

/// All questions that a search may ask: first those about anchors, certificate by certificate; then those about the certificates of the bag,
/// issuer by issuer.
pub fn questions(alloc: Global, search: &Search<'_, '_>) -> Result<Vec<SearchQuestion>, AllocError>
    ensures questions { IfOk result (λ questions.
        AreSearchQuestions (seen_search search.now) questions.items) }
    ensures order { IfOk result (λ questions. AllPairs IsAskedBefore questions.items) }
{
    let naming = Naming::new(alloc, search)?;
    let count = search.bag.len();
    let mut questions = Vec::new(alloc);
    add_about_anchors(&mut questions, &naming, count + 1)?;
    add_about_issued(&mut questions, &naming, count)?;
    Ok(questions)
}

/// Two verifiers that answer each of these questions alike have the same valid paths. So a caller may have them judged beforehand, and search
/// with a verifier that knows these answers alone.
pub fn question_laws()
    ensures suffice { QuestionsSuffice }
{}
