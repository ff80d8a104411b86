//! Searches of commands, with a verifier that accepts the signatures whose fingerprints a file lists.
ghost use Rattle.std.specs.Prelude.{◌≡◌, ◌↔◌, [], IfErr, IfOk, IsTrue, List, Option, option_map, ℕ};
ghost use Rattle.cert.specs.Certificate.{seen_certificate};
ghost use Rattle.names_identity.specs.Identity.{reference_identity};
ghost use Rattle.path_issuers.specs.View.{seen_search};
ghost use Rattle.cli_failures.specs.declared.failure.Failure.TheVariants.{NoMemory};
ghost use Rattle.cli_words.specs.SearchTexts.{seen_search_words};
ghost use Rattle.cli_operands.specs.Asked.{AreTerms};
ghost use Rattle.cli_operands.specs.Name.{IsNameOf};
ghost use Rattle.cli_operands.specs.Searching.{IsFailureOfSearched, IsRefusalInSearch};
ghost use Rattle.cli_steps.specs.Finding.{AnswersIn, IsSearchIn};
ghost use Rattle.cli_steps.specs.Found.{AnswersFinding, FindsBelieving, FindsByTexts, FindsThen, IsAskedToFind, IsToldOf, SpeaksForName, with_name};
ghost use Rattle.cli_steps.specs.Passing.{PassesOn};
ghost use Rattle.cli_steps.specs.Steps.{FindsPath};
ghost use Rattle.cli_steps.specs.Ways.{MovesParty};

use crate::answer::SessionAnswer;
use crate::found::FoundPath;
use crate::keeper::Keeper;
use crate::party::Party;
use crate::receiver::AnswerSearch;
use cert::Certificate;
use cli_answers::SearchVerdict;
use cli_failures::{Failure, Source};
use cli_operands::{
    SearchOperands, Terms, identity_of, read_fingerprints, read_name, read_search_operands,
    read_terms,
};
use cli_words::SearchWords;
use names_identity::{Identity, speaks_for};
use path_search::{Budget, Search};
use path_verifiers::{ListVerifier, Verifier};
use relying_agreement::Verdict;
use relying_search::{Finding, FindingBudget};
use std::alloc::Global;

// What a search may spend. Bags that servers send take fewer than ten of each.
const USUAL_BUDGET: FindingBudget = FindingBudget {
    search: Budget {
        signatures: 1_000,
        steps: 10_000,
    },
    verdicts: 32,
};

// Whether the certificate speaks for the name, if one is asked for.
fn speaks_for_name(name: Option<Identity<'_>>, target: &Certificate<'_>) -> bool
    ensures { IsTrue result ↔ SpeaksForName (option_map reference_identity name.entry)
        (seen_certificate target.now) }
{
    match name {
        None => true,
        Some(identity) => speaks_for(&target.extensions.alternative_names, &identity),
    }
}

// What is told of a path to the target with this verdict.
fn told_of(name: Option<Identity<'_>>, target: &Certificate<'_>, verdict: Verdict) -> SearchVerdict
    ensures { IsToldOf (option_map reference_identity name.entry) (seen_certificate target.now)
        verdict result }
{
    if verdict != Verdict::Valid {
        return SearchVerdict::Told(verdict);
    }
    if speaks_for_name(name, target) {
        SearchVerdict::Told(verdict)
    } else {
        SearchVerdict::OtherName
    }
}

// That no path was found.
fn without_path<'a>(alloc: Global, verdict: SearchVerdict) -> FoundPath<'a>
    ensures path { result.path.items ≡ [] }
    ensures verdict { result.verdict ≡ verdict }
{
    FoundPath {
        path: Vec::new(alloc),
        verdict,
    }
}

// What is answered, if this was found.
fn answer_in<'a>(
    alloc: Global,
    operands: &SearchOperands<'a>,
    name: Option<Identity<'_>>,
    target: &Certificate<'_>,
    finding: &Finding,
) -> Result<FoundPath<'a>, Failure<'a>>
    ensures answers { IfOk result (AnswersIn operands.now (option_map reference_identity name.entry)
        (seen_certificate target.now) finding.now) }
    ensures fails { IfErr result (λ failure. failure ≡ NoMemory) }
{
    match finding {
        Finding::Found(candidate, verdict) => Ok(FoundPath {
            path: operands.places(alloc, candidate)?,
            verdict: told_of(name, target, *verdict),
        }),
        Finding::NotFound => Ok(without_path(alloc, SearchVerdict::NotFound)),
        Finding::GaveUp => Ok(without_path(alloc, SearchVerdict::GaveUp)),
    }
}

// What is found among the certificates, on these terms.
fn find_in<'a, R: AnswerSearch<'a>, V: Verifier>(
    receiver: &mut R,
    alloc: Global,
    verifier: &V,
    operands: &SearchOperands<'a>,
    search: &Search<'_, '_>,
    name: Option<Identity<'_>>,
) -> Result<FoundPath<'a>, Failure<'a>>
    ensures { FindsThen R.finds (AnswersIn operands.now (option_map reference_identity name.entry)
        (seen_search search.now).target) receiver.old receiver.new (V.accepts verifier.now)
        (seen_search search.now) result }
{
    let finding = receiver.answer_search(alloc, verifier, search, USUAL_BUDGET)?;
    answer_in(alloc, operands, name, search.target, &finding)
}

// The same among the certificates of the operands.
fn find_of<'a, R: AnswerSearch<'a>, V: Verifier>(
    receiver: &mut R,
    alloc: Global,
    verifier: &V,
    operands: &SearchOperands<'a>,
    terms: &Terms,
    name: Option<Identity<'_>>,
) -> Result<FoundPath<'a>, Failure<'a>>
    ensures { PassesOn (IsSearchIn operands.now terms.now) (IsRefusalInSearch operands.now)
        (λ old new s. FindsThen R.finds (AnswersIn operands.now
        (option_map reference_identity name.entry) s.target) old new (V.accepts verifier.now) s)
        receiver.old receiver.new result }
{
    let certificates = operands.certificates(alloc)?;
    let search = certificates.search(terms);
    find_in(receiver, alloc, verifier, operands, &search, name)
}

// The same among the certificates that the words name.
fn find_on<'a, R: AnswerSearch<'a>, V: Verifier, S: Source>(
    receiver: &mut R,
    source: &S,
    alloc: Global,
    verifier: &V,
    words: &SearchWords<'a>,
    terms: &Terms,
    name: Option<Identity<'_>>,
) -> Result<FoundPath<'a>, Failure<'a>>
    ensures { (said : Option (List ℕ))
        → AreTerms words.now.moment.now (option_map (λ text. text.now) words.now.purpose) terms.now
        → IsNameOf said (option_map reference_identity name.entry)
        → PassesOn
        (IsAskedToFind (S.holds source.now) (with_name said (seen_search_words words.now)))
        (IsFailureOfSearched (S.holds source.now) (with_name said (seen_search_words words.now)))
        (λ old new asked. FindsThen R.finds (AnswersFinding (S.holds source.now)
        (with_name said (seen_search_words words.now)) asked) old new
        (V.accepts verifier.now) asked.search) receiver.old receiver.new result }
{
    let operands = read_search_operands(source, alloc, words)?;
    find_of(receiver, alloc, verifier, &operands, terms, name)
}

// What is found as the words ask, for this name, with this verifier.
fn find_by_words<'a, R: AnswerSearch<'a>, V: Verifier, S: Source>(
    receiver: &mut R,
    source: &S,
    alloc: Global,
    verifier: &V,
    words: &SearchWords<'a>,
    name: Option<&str>,
) -> Result<FoundPath<'a>, Failure<'a>>
    ensures { FindsByTexts (S.holds source.now) (V.accepts verifier.now)
        (with_name (option_map (λ text. text.now) name.entry) (seen_search_words words.now))
        R.finds receiver.old receiver.new result }
{
    let terms = read_terms(alloc, words.moment, words.purpose)?;
    let name = read_name(name)?;
    find_on(
        receiver,
        source,
        alloc,
        verifier,
        words,
        &terms,
        identity_of(&name),
    )
}

/// Tells a session the path that is found to the certificate that the words name, for this name if there is one, and its verdict by what
/// is held.
pub(crate) fn find<'a, K: Keeper, S: Source>(
    party: &mut Party<K>,
    source: &S,
    alloc: Global,
    words: &SearchWords<'a>,
    name: Option<&str>,
) -> SessionAnswer<'a>
    ensures clean { K.is_clean party.new.keeper → K.is_clean party.old.keeper }
    ensures steps { MovesParty K.is_clean K.keeps party.old party.new (λ old new.
        FindsPath (S.holds source.now)
        (with_name (option_map (λ text. text.now) name.entry) (seen_search_words words.now))
        old result × (new ≡ old)) }
{
    let (keeper, verifier) = (&mut party.keeper, &party.believed);
    match find_by_words(keeper, source, alloc, verifier, words, name) {
        Ok(found) => SessionAnswer::Found(found),
        Err(failure) => SessionAnswer::Failed(failure),
    }
}

/// Reads the moment, the purpose, the name, the file of fingerprints, and the files of the target, of the anchors and of the others, in
/// this order and each once, and passes the search to the receiver. The first that is wrong is reported; the receiver is called only if
/// none is. Memory is linear in the octets of the files.
pub fn find_believing<'a, R: AnswerSearch<'a>, S: Source>(
    receiver: &mut R,
    source: &S,
    alloc: Global,
    verdicts: &'a str,
    words: &SearchWords<'a>,
) -> Result<FoundPath<'a>, Failure<'a>>
    ensures { FindsBelieving (S.holds source.now) verdicts.entry.now (seen_search_words words.now)
        R.finds receiver.old receiver.new result }
{
    let terms = read_terms(alloc, words.moment, words.purpose)?;
    let name = read_name(words.name)?;
    let prints = read_fingerprints(source, alloc, verdicts)?;
    let verifier = ListVerifier::new(prints);
    find_on(
        receiver,
        source,
        alloc,
        &verifier,
        words,
        &terms,
        identity_of(&name),
    )
}
