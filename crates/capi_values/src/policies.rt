//! The verdict on a path in texts whose policies are processed, as numbers.

ghost use Rattle.std.specs.Prelude.{◌≡◌, ◌++◌, ◌<◌, IfErr, IfOk, OnErr, OnOk, length, map};
ghost use Rattle.path.specs.Query.{Accepts};
ghost use Rattle.path.specs.Reading.{texts_of};
ghost use Rattle.path_policies.specs.Seen.{contents_of};
ghost use Rattle.statements.specs.Statement.{seen_statement};
ghost use Rattle.capi_values.specs.Arrays.{AreWrittenTo};
ghost use Rattle.capi_values.specs.Judging.{AreJudged};
ghost use Rattle.capi_values.specs.Policies.{ArePoliciesWritten, TellsPoliciesFor, TellsPolicyAnswer, TellsPolicyRefusal, TellsWithPolicies, joined, policies_in, without_policies};
ghost use Rattle.capi_values.specs.PolicyCase.{AreInputs, IsCaseOf, IsSaidBy, IsSaidOn};
ghost use Rattle.capi_values.specs.Texts.{octets_of_texts};

use crate::answer::VerdictAnswer;
use crate::case::Case;
use crate::finding::write;
use crate::refusal::Refusal;
use crate::texts::{QueryOfTexts, Text};
use crate::validating::{answer_of, believing, refused};
use asn::Oid;
use path_policies::PolicySets;
use path_with_policies::{PolicyInputs, QueryWithPolicies};
use relying_policies::{VerdictWithPolicies, add_policies};
use relying_questions::question_laws;
use relying_texts::verdict;
use statements::Statement;
use std::alloc::{AllocError, Global};

/// What the user asks of policies, as `path_with_policies::PolicyInputs`. Of the flags any number but 0 asks for it.
#[derive(Clone, Copy, Debug)]
#[repr(C)]
pub struct PolicyInputsOfTexts<'a> {
    /// user-initial-policy-set: the contents of OBJECT IDENTIFIERs.
    pub initial_policies: &'a [Text<'a>],
    pub inhibit_policy_mapping: u32,
    pub require_explicit_policy: u32,
    pub inhibit_any_policy: u32,
}

/// The verdict on a path whose policies are processed, or what is refused. What has no number there is 0.
#[derive(Clone, Copy, Debug, PartialEq, Eq, Default)]
#[repr(C)]
pub struct PolicyAnswer {
    pub verdict: VerdictAnswer,
    /// How many policies are authority-constrained, and how many user-constrained (RFC 5280, 6.1.5 (g)).
    pub authority_count: usize,
    pub user_count: usize,
    /// How many octets the contents of all of them have together.
    pub octet_count: usize,
}

impl<'a> PolicyInputsOfTexts<'a> {
    /// The policies that the user takes.
    fn policies(&self, alloc: Global) -> Result<Vec<Oid<'a>>, AllocError>
        ensures { IfOk result (λ policies.
            contents_of policies.items ≡ octets_of_texts self.now.initial_policies.now) }
    {
        let mut policies = Vec::new(alloc);
        for text in self.initial_policies {
            policies.push(Oid::new(text.octets))?;
        }
        Ok(policies)
    }

    /// The inputs, with these policies.
    fn inputs<'p>(&self, policies: &'p [Oid<'a>]) -> PolicyInputs<'p, 'a>
        ensures { AreInputs self.now policies.now result }
    {
        PolicyInputs {
            initial_policies: policies,
            inhibit_policy_mapping: self.inhibit_policy_mapping != 0,
            require_explicit_policy: self.require_explicit_policy != 0,
            inhibit_any_policy: self.inhibit_any_policy != 0,
        }
    }
}

/// A question about a path and its policies, and statements, that were read.
#[derive(Drop)]
struct PolicyCase<'p, 'a> {
    query: QueryWithPolicies<'p, 'a>,
    statements: Vec<Statement<'a>>,
}

impl<'p, 'a> PolicyCase<'p, 'a> {
    /// Reads the certificates, then the statements, and then what the certificates say of policies.
    fn read(
        alloc: Global,
        query: &QueryOfTexts<'a>,
        statements: &[Text<'a>],
        inputs: PolicyInputs<'p, 'a>,
    ) -> Result<PolicyCase<'p, 'a>, Refusal>
        ensures reads { IfOk result (λ case. IsCaseOf query.now statements.now inputs.entry
            case.query (map seen_statement case.statements.items)) }
        ensures refuses { IfErr result (TellsPolicyRefusal query.now statements.now) }
    {
        let Case { query, statements } = Case::read(alloc, query, statements)?;
        match QueryWithPolicies::of(alloc, query, inputs) {
            Ok(query) => Ok(PolicyCase { query, statements }),
            Err(fault) => Err(Refusal::of_certificate(fault)),
        }
    }

    /// The verdict of who accepts the signatures with these fingerprints, and the policies.
    fn say(
        &self,
        alloc: Global,
        fingerprints: &[[u8; 32]],
    ) -> Result<VerdictWithPolicies<'a>, AllocError>
        ensures { IfOk result (IsSaidBy fingerprints.now self.now.query
            (map seen_statement self.now.statements.items)) }
    {
        let verifier = believing(alloc, fingerprints)?;
        let verdict = verdict(
            alloc,
            &verifier,
            self.query.path(),
            self.statements.as_slice(),
        )?;
        add_policies(alloc, verdict, &self.query)
    }
}

/// The verdict by the statements, and the policies.
fn said_on<'a>(
    alloc: Global,
    query: &QueryOfTexts<'a>,
    inputs: &PolicyInputsOfTexts<'a>,
    statements: &[Text<'a>],
    fingerprints: &[[u8; 32]],
) -> Result<VerdictWithPolicies<'a>, Refusal>
    ensures says { IfOk result (IsSaidOn query.now inputs.now statements.now fingerprints.now) }
    ensures refuses { IfErr result (TellsPolicyRefusal query.now statements.now) }
{
    let policies = inputs.policies(alloc)?;
    let inputs = inputs.inputs(policies.as_slice());
    let case = PolicyCase::read(alloc, query, statements, inputs)?;
    Ok(case.say(alloc, fingerprints)?)
}

/// Adds the contents of each policy.
fn add_contents<'a>(all: &mut Vec<&'a [u8]>, policies: &[Oid<'a>]) -> Result<(), AllocError>
    ensures { OnOk result (texts_of all.new.items
        ≡ texts_of all.old.items ++ contents_of policies.now) }
{
    for policy in policies {
        all.push(policy.contents())?;
    }
    Ok(())
}

/// The contents of the policies, those of the authorities first.
fn contents_in<'a>(alloc: Global, sets: &PolicySets<'a>) -> Result<Vec<&'a [u8]>, AllocError>
    ensures { IfOk result (λ all. texts_of all.items ≡ policies_in sets.now) }
{
    let mut all = Vec::new(alloc);
    add_contents(&mut all, sets.authority_constrained.as_slice())?;
    add_contents(&mut all, sets.user_constrained.as_slice())?;
    Ok(all)
}

/// How many octets each has.
fn lengths_of(alloc: Global, all: &[&[u8]]) -> Result<Vec<usize>, AllocError>
    ensures { IfOk result (λ lengths.
        lengths.items ≡ map (λ policy. length policy) (texts_of all.now)) }
{
    let mut lengths = Vec::new(alloc);
    for policy in all {
        lengths.push(policy.len())?;
    }
    Ok(lengths)
}

/// The octets of all, one behind the other.
fn joined_of(alloc: Global, all: &[&[u8]]) -> Result<Vec<u8>, AllocError>
    ensures { IfOk result (λ octets. octets.items ≡ joined (texts_of all.now)) }
{
    let mut octets = Vec::new(alloc);
    for policy in all {
        octets.extend_from_slice(policy)?;
    }
    Ok(octets)
}

/// Writes the octets, as many as there is room for, and answers how many there are.
fn write_octets(octets: &[u8], room: &mut [u8]) -> usize
    ensures { AreWrittenTo octets.now room.old room.new result }
{
    let fitting = octets.len().min(room.len());
    for index in 0..fitting {
        room[index] = octets[index];
    }
    octets.len()
}

/// Writes the policies, and tells how many there are.
fn write_policies(
    alloc: Global,
    sets: &PolicySets<'_>,
    verdict: VerdictAnswer,
    lengths: &mut [usize],
    octets: &mut [u8],
) -> Result<PolicyAnswer, AllocError>
    ensures written { IfOk result (λ answer. ArePoliciesWritten sets.now answer
        lengths.old lengths.new octets.old octets.new) }
    ensures verdict { IfOk result (λ answer. answer.verdict ≡ verdict) }
    ensures lengths_stay { OnErr result (lengths.new ≡ lengths.old) }
    ensures octets_stay { OnErr result (octets.new ≡ octets.old) }
{
    let all = contents_in(alloc, sets)?;
    let each = lengths_of(alloc, all.as_slice())?;
    let joined = joined_of(alloc, all.as_slice())?;
    write(each.as_slice(), lengths);
    Ok(PolicyAnswer {
        verdict,
        authority_count: sets.authority_constrained.len(),
        user_count: sets.user_constrained.len(),
        octet_count: write_octets(joined.as_slice(), octets),
    })
}

/// A verdict without policies.
fn without_policies(verdict: VerdictAnswer) -> PolicyAnswer
    ensures { result ≡ without_policies verdict }
{
    PolicyAnswer {
        verdict,
        ..PolicyAnswer::default()
    }
}

/// Tells the verdict, and writes the policies.
fn tell(
    alloc: Global,
    said: &VerdictWithPolicies<'_>,
    lengths: &mut [usize],
    octets: &mut [u8],
) -> Result<PolicyAnswer, AllocError>
    ensures tells { IfOk result (TellsWithPolicies said.now
        lengths.old lengths.new octets.old octets.new) }
    ensures filled { IfOk result (λ answer. 0 < answer.verdict.verdict) }
    ensures lengths_stay { OnErr result (lengths.new ≡ lengths.old) }
    ensures octets_stay { OnErr result (octets.new ≡ octets.old) }
{
    let verdict = answer_of(said.verdict);
    match &said.policies {
        None => Ok(without_policies(verdict)),
        Some(sets) => write_policies(alloc, sets, verdict, lengths, octets),
    }
}

/// The verdict on the path by statements at hand, and the policies at its end, as `relying_policies::verdict_with_policies` gives them, for who
/// accepts the signatures with these fingerprints; or the first fault: of the certificates, then of the statements, then of what the
/// certificates below the anchor say of policies.
///
/// The lengths of the policies are written, those of the authorities first, and their contents one behind the other, as many as there is room
/// for.
///
/// Whoever asks `questions_of_query`, has each question judged, and hands in the fingerprints of those that are answered by yes, and of no
/// others, gets the verdict of that judge.
pub fn answer_policy_query<'a>(
    alloc: Global,
    query: &QueryOfTexts<'a>,
    inputs: &PolicyInputsOfTexts<'a>,
    statements: &[Text<'a>],
    fingerprints: &[[u8; 32]],
    lengths: &mut [usize],
    octets: &mut [u8],
) -> PolicyAnswer
    ensures tells { TellsPolicyAnswer result query.now inputs.now statements.now fingerprints.now
        lengths.old lengths.new octets.old octets.new }
    ensures judged { (accepts : Accepts)
        → AreJudged accepts query.now statements.now fingerprints.now
        → TellsPoliciesFor result accepts query.now inputs.now statements.now
        lengths.old lengths.new octets.old octets.new }
    ensures filled { 0 < result.verdict.verdict }
{
    question_laws();
    match said_on(alloc, query, inputs, statements, fingerprints) {
        Ok(said) => match tell(alloc, &said, lengths, octets) {
            Ok(answer) => answer,
            Err(_) => without_policies(refused(Refusal::no_memory())),
        },
        Err(refusal) => without_policies(refused(refusal)),
    }
}
