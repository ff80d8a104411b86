//! Queries: what words ask of a path is passed to a receiver; and the verdicts of a session.
ghost use Rattle.std.specs.Prelude.{◌≡◌};
ghost use Rattle.cli_operands.specs.Asked.{Asks, IsFailureOfCertificates, NameTerms};
ghost use Rattle.cli_operands.specs.Operands.{IsQueryOf, IsRefusalIn};
ghost use Rattle.cli_words.specs.QueryTexts.{seen_words};
ghost use Rattle.cli_steps.specs.Passing.{AsksByWords, PassesOn};
ghost use Rattle.cli_steps.specs.Steps.{ChecksPath};
ghost use Rattle.cli_steps.specs.Ways.{MovesParty};

use crate::answer::SessionAnswer;
use crate::keeper::Keeper;
use crate::party::Party;
use crate::receiver::AnswerQuery;
use cli_failures::{Failure, Source};
use cli_operands::{Operands, Terms, read_operands, read_terms};
use cli_words::QueryWords;
use path_verifiers::Verifier;
use std::alloc::Global;

// The answer to the query on these terms about the certificates of the operands.
fn ask_of<'a, T, R: AnswerQuery<'a, T>, V: Verifier>(
    receiver: &mut R,
    alloc: Global,
    verifier: &V,
    operands: &Operands<'a>,
    terms: &Terms,
) -> Result<T, Failure<'a>>
    ensures { PassesOn (IsQueryOf operands.now terms.now) (IsRefusalIn operands.now)
        (λ old new query result. R.answers old new (V.accepts verifier.now) query result)
        receiver.old receiver.new result }
{
    let query = operands.query(alloc, terms)?;
    receiver.answer(alloc, verifier, &query)
}

/// The answer to the query on these terms about the certificates that the words name.
pub(crate) fn ask_on<'a, T, R: AnswerQuery<'a, T>, V: Verifier, S: Source>(
    receiver: &mut R,
    source: &S,
    alloc: Global,
    verifier: &V,
    terms: &Terms,
    words: &QueryWords<'a>,
) -> Result<T, Failure<'a>>
    ensures { NameTerms (seen_words words.now) terms.now
        → PassesOn (Asks (S.holds source.now) (seen_words words.now))
        (IsFailureOfCertificates (S.holds source.now) (seen_words words.now))
        (λ old new query result. R.answers old new (V.accepts verifier.now) query result)
        receiver.old receiver.new result }
{
    let operands = read_operands(source, alloc, words)?;
    ask_of(receiver, alloc, verifier, &operands, terms)
}

// The answer to the query that the words ask.
fn ask<'a, T, R: AnswerQuery<'a, T>, V: Verifier, S: Source>(
    receiver: &mut R,
    source: &S,
    alloc: Global,
    verifier: &V,
    words: &QueryWords<'a>,
) -> Result<T, Failure<'a>>
    ensures { AsksByWords (S.holds source.now) (V.accepts verifier.now) (seen_words words.now)
        R.answers receiver.old receiver.new result }
{
    let terms = read_terms(alloc, words.moment, words.purpose)?;
    ask_on(receiver, source, alloc, verifier, &terms, words)
}

/// Tells a session's verdict on the path that the words name, by what is held.
pub(crate) fn check<'a, K: Keeper, S: Source>(
    party: &mut Party<K>,
    source: &S,
    alloc: Global,
    words: &QueryWords<'a>,
) -> SessionAnswer<'a>
    ensures clean { K.is_clean party.new.keeper → K.is_clean party.old.keeper }
    ensures steps { MovesParty K.is_clean K.keeps party.old party.new (λ old new.
        ChecksPath (S.holds source.now) (seen_words words.now) old result × (new ≡ old)) }
{
    let (keeper, verifier) = (&mut party.keeper, &party.believed);
    match ask(keeper, source, alloc, verifier, words) {
        Ok(verdict) => SessionAnswer::Told(verdict),
        Err(failure) => SessionAnswer::Failed(failure),
    }
}
