//! What a verifier may be asked for what a search finds by statements.

ghost use Rattle.std.specs.Prelude.{IfOk, map};
ghost use Rattle.path_issuers.specs.View.{seen_search};
ghost use Rattle.statements.specs.Statement.{seen_statement};
ghost use Rattle.relying_questions.specs.Agreement.{DecideFinding};
ghost use Rattle.relying_questions.specs.FindingQuestions.{AreFindingQuestions, asked_of_pair};
ghost use Rattle.relying_questions.specs.Issuers.{IssuersAreThere};
ghost use Rattle.relying_questions.specs.Places.{KeepsInTexts, SearchStands, StandWhereSearched};
ghost use Rattle.relying_questions.specs.Seen.{Adds, seen_all};

use crate::issuers::issuers_of;
use crate::question::SignatureQuestion;
use crate::searched::{certificate_at, issuer_at};
use crate::signatures::of_certificate;
use crate::under_issuers::ask_statements;
use path_issuers::{Search, SearchQuestion};
use statements::{Statement, statement_profile_laws};
use std::alloc::{AllocError, Global};

/// Adds the question about each of the pairs.
fn ask_pairs<'c>(
    asked: &mut Vec<SignatureQuestion<'c>>,
    search: &Search<'_, 'c>,
    pairs: &[SearchQuestion],
) -> Result<(), AllocError>
    ensures asked { IfOk result (λ _. Adds asked.old.items asked.new.items
        (map (asked_of_pair (seen_search search.now)) pairs.now)) }
    ensures places { IfOk result (λ _. KeepsInTexts (λ texts.
        SearchStands texts (seen_search search.now)
        × IssuersAreThere (seen_search search.now) pairs.now)
        asked.old.items asked.new.items) }
{
    for pair in pairs {
        let issuer = issuer_at(search, pair.issuer);
        let certificate = certificate_at(search, pair.certificate);
        asked.push(of_certificate(&issuer, &certificate))?;
    }
    Ok(())
}

/// What a verifier may be asked for the finding of a search by these statements (`relying_texts::find`): first whether one certificate
/// issued another, for each pair that `path_issuers::questions` lists, in its order; then about each statement, under each certificate that
/// stands as the issuer in one of these pairs, anchors by their places and then those of the bag. The answers to these questions decide the
/// finding, whatever its budget is (`finding_question_laws`).
///
/// A statement is asked about under no anchor and no certificate of the bag that cannot have issued one that leads to the target by names.
/// For n issuers these are at most n questions about a list, and at most n (1 + 2 m) about a response that m certificates come with, as
/// `questions` has them. `find` asks only some of them.
///
/// The time is that of `path_issuers::questions`, and a comparison of names for each statement and issuer, or for each certificate that
/// comes with a response; these certificates are read once for each issuer. Memory is taken for the pairs, for a mark for each certificate
/// of the search, for the issuers, for the questions and for reading.
pub fn finding_questions<'c>(
    alloc: Global,
    search: &Search<'_, 'c>,
    statements: &[Statement<'c>],
) -> Result<Vec<SignatureQuestion<'c>>, AllocError>
    ensures asked { IfOk result (λ asked. AreFindingQuestions (seen_search search.now)
        (map seen_statement statements.now) (seen_all asked.items)) }
    ensures decide { IfOk result (λ asked. DecideFinding (seen_all asked.items)
        (seen_search search.now) (map seen_statement statements.now)) }
    ensures places { IfOk result (λ asked. StandWhereSearched (seen_search search.now)
        (map seen_statement statements.now) asked.items) }
{
    statement_profile_laws();
    let pairs = path_issuers::questions(alloc, search)?;
    let issuers = issuers_of(alloc, search, pairs.as_slice())?;
    let mut asked = Vec::new(alloc);
    ask_pairs(&mut asked, search, pairs.as_slice())?;
    ask_statements(alloc, &mut asked, issuers.as_slice(), statements)?;
    Ok(asked)
}
