//! Verdicts on paths whose certificate policies are processed: what words ask is passed to a receiver, and the policies are added to its
//! verdict.
ghost use Rattle.std.specs.Prelude.{◌≡◌, IfErr, IfOk};
ghost use Rattle.cli_failures.specs.declared.failure.Failure.TheVariants.{NoMemory};
ghost use Rattle.cli_operands.specs.Asked.{NameTerms};
ghost use Rattle.cli_operands.specs.Policies.{ArePolicyTerms, AsksWithPolicies, IsFailureOfPolicyPath, IsRefusalWithPolicies};
ghost use Rattle.cli_words.specs.PolicyTexts.{PolicyTexts, seen_policy_words};
ghost use Rattle.cli_words.specs.QueryTexts.{seen_words};
ghost use Rattle.cli_steps.specs.Passing.{PassesOn};
ghost use Rattle.cli_steps.specs.Steps.{ChecksPolicies};
ghost use Rattle.cli_steps.specs.Ways.{MovesParty};
ghost use Rattle.cli_steps.specs.WithPolicies.{ChecksBelieving, ChecksByTexts, ChecksThen, IsPolicyQueryIn, TellsWithPolicies};

use crate::answer::SessionAnswer;
use crate::keeper::Keeper;
use crate::party::Party;
use crate::policy_verdict::{PolicyVerdict, told_of};
use crate::receiver::AnswerQuery;
use cli_failures::{Failure, Source};
use cli_operands::{
    Operands, PolicyTerms, Terms, read_fingerprints, read_operands, read_policy_terms, read_terms,
};
use cli_words::{PolicyWords, QueryWords};
use path_verifiers::{ListVerifier, Verifier};
use path_with_policies::QueryWithPolicies;
use relying_agreement::Verdict;
use relying_policies::add_policies;
use std::alloc::Global;

// What is told with policies, if this is the verdict on the path without them.
fn tell_with_policies<'a>(
    alloc: Global,
    verdict: Verdict,
    query: &QueryWithPolicies<'_, '_>,
) -> Result<PolicyVerdict, Failure<'a>>
    ensures told { IfOk result (TellsWithPolicies query.now verdict) }
    ensures fails { IfErr result (λ failure. failure ≡ NoMemory) }
{
    match add_policies(alloc, verdict, query) {
        Ok(answer) => told_of(alloc, &answer),
        Err(_) => Err(Failure::NoMemory),
    }
}

// What is told of the query, by the receiver's verdict.
fn check_in<'a, R: AnswerQuery<'a, Verdict>, V: Verifier>(
    receiver: &mut R,
    alloc: Global,
    verifier: &V,
    query: &QueryWithPolicies<'_, '_>,
) -> Result<PolicyVerdict, Failure<'a>>
    ensures { ChecksThen R.answers receiver.old receiver.new (V.accepts verifier.now) query.now
        result }
{
    let verdict = receiver.answer(alloc, verifier, query.path())?;
    tell_with_policies(alloc, verdict, query)
}

// The same of the query on these terms about the certificates of the operands.
fn check_of<'a, R: AnswerQuery<'a, Verdict>, V: Verifier>(
    receiver: &mut R,
    alloc: Global,
    verifier: &V,
    operands: &Operands<'a>,
    terms: &Terms,
    policies: &PolicyTerms,
) -> Result<PolicyVerdict, Failure<'a>>
    ensures { PassesOn (IsPolicyQueryIn operands.now terms.now policies.now)
        (IsRefusalWithPolicies operands.now terms.now)
        (λ old new q. ChecksThen R.answers old new (V.accepts verifier.now) q)
        receiver.old receiver.new result }
{
    let Ok(initial_policies) = policies.initial_policies(alloc) else {
        return Err(Failure::NoMemory);
    };
    let inputs = policies.inputs(initial_policies.as_slice());
    let query = operands.query_with_policies(alloc, terms, inputs)?;
    check_in(receiver, alloc, verifier, &query)
}

// The same of the query on these terms about the certificates that the words name.
fn check_on<'a, R: AnswerQuery<'a, Verdict>, V: Verifier, S: Source>(
    receiver: &mut R,
    source: &S,
    alloc: Global,
    verifier: &V,
    terms: &Terms,
    policies: &PolicyTerms,
    words: &QueryWords<'a>,
) -> Result<PolicyVerdict, Failure<'a>>
    ensures { NameTerms (seen_words words.now) terms.now
        → (asked : PolicyTexts) → ArePolicyTerms asked policies.now
        → PassesOn (AsksWithPolicies (S.holds source.now) (seen_words words.now) asked)
        (IsFailureOfPolicyPath (S.holds source.now) (seen_words words.now))
        (λ old new q. ChecksThen R.answers old new (V.accepts verifier.now) q)
        receiver.old receiver.new result }
{
    let operands = read_operands(source, alloc, words)?;
    check_of(receiver, alloc, verifier, &operands, terms, policies)
}

// The same of the query that the words ask.
fn check_by_words<'a, R: AnswerQuery<'a, Verdict>, V: Verifier, S: Source>(
    receiver: &mut R,
    source: &S,
    alloc: Global,
    verifier: &V,
    words: &QueryWords<'a>,
    policies: &PolicyWords<'a>,
) -> Result<PolicyVerdict, Failure<'a>>
    ensures { ChecksByTexts (S.holds source.now) (V.accepts verifier.now) (seen_words words.now)
        (seen_policy_words policies.now) R.answers receiver.old receiver.new result }
{
    let terms = read_terms(alloc, words.moment, words.purpose)?;
    let read = read_policy_terms(alloc, policies)?;
    check_on(receiver, source, alloc, verifier, &terms, &read, words)
}

/// Tells a session's verdict on the path that the words name, by what is held, with the policies at its end.
pub(crate) fn check_with_policies<'a, K: Keeper, S: Source>(
    party: &mut Party<K>,
    source: &S,
    alloc: Global,
    words: &QueryWords<'a>,
    policies: &PolicyWords<'a>,
) -> SessionAnswer<'a>
    ensures clean { K.is_clean party.new.keeper → K.is_clean party.old.keeper }
    ensures steps { MovesParty K.is_clean K.keeps party.old party.new (λ old new.
        ChecksPolicies (S.holds source.now) (seen_words words.now)
        (seen_policy_words policies.now) old result × (new ≡ old)) }
{
    let (keeper, verifier) = (&mut party.keeper, &party.believed);
    match check_by_words(keeper, source, alloc, verifier, words, policies) {
        Ok(told) => SessionAnswer::ToldWithPolicies(told),
        Err(failure) => SessionAnswer::Failed(failure),
    }
}

/// Reads the moment, the purpose, the policies, the file of fingerprints, the anchor's file and the files of the path, in this order and
/// each once, and passes the query to the receiver; the policies at the end of the path are added to its verdict (RFC 5280, 6.1). The first
/// that is wrong is reported; the receiver is called only if none is. Memory is linear in the octets of the files, and what policies take.
pub fn check_believing<'a, R: AnswerQuery<'a, Verdict>, S: Source>(
    receiver: &mut R,
    source: &S,
    alloc: Global,
    verdicts: &'a str,
    words: &QueryWords<'a>,
    policies: &PolicyWords<'a>,
) -> Result<PolicyVerdict, Failure<'a>>
    ensures { ChecksBelieving (S.holds source.now) verdicts.entry.now (seen_words words.now)
        (seen_policy_words policies.now) R.answers receiver.old receiver.new result }
{
    let terms = read_terms(alloc, words.moment, words.purpose)?;
    let read = read_policy_terms(alloc, policies)?;
    let prints = read_fingerprints(source, alloc, verdicts)?;
    let verifier = ListVerifier::new(prints);
    check_on(receiver, source, alloc, &verifier, &terms, &read, words)
}
