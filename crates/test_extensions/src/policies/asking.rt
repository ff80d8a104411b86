//! Questions about policies, and their answers, in the notation of the rows.

use crate::building::RowFault;
use asn::Oid;
use cert_policies::{PolicyExtensions, PolicyMapping};
use path_policies::{
    ANY_POLICY, PolicyCertificate, PolicyOutcome, PolicyQuery, PolicyState, PolicyStep,
    process_policies,
};
use std::alloc::{AllocError, Global};
use std::fmt::Write;

/// The policies 1.2.97, 1.2.98 and so on, by their letters: the first octet of each is 2A, an asterisk.
const POLICIES: &[u8] = b"*a*b*c*d*e*f*g*h*i*j*k*l*m*n*o*p*q*r*s*t*u*v*w*x*y*z";

/// The policy of a letter; anyPolicy of an asterisk.
fn policy_of(letter: u8) -> Result<Oid<'static>, RowFault> {
    if letter == b'*' {
        return Ok(Oid::new(ANY_POLICY));
    }
    POLICIES
        .chunks(2)
        .find(|contents| contents.last() == Some(&letter))
        .map(|contents| Oid::new(contents))
        .ok_or(RowFault::Word)
}

fn policies_of(alloc: Global, letters: &str) -> Result<Vec<Oid<'static>>, RowFault> {
    let mut policies = Vec::new(alloc);
    for letter in letters.as_bytes() {
        policies.push(policy_of(*letter)?)?;
    }
    Ok(policies)
}

/// Mappings as `a>b,c>d`.
fn mappings_of(alloc: Global, text: &str) -> Result<Vec<PolicyMapping<'static>>, RowFault> {
    let mut mappings = Vec::new(alloc);
    for mapping in text.split(',') {
        let &[issuer, _, subject] = mapping.as_bytes() else {
            return Err(RowFault::Word);
        };
        mappings.push(PolicyMapping {
            issuer_domain_policy: policy_of(issuer)?,
            subject_domain_policy: policy_of(subject)?,
        })?;
    }
    Ok(mappings)
}

fn number_of(text: &str) -> Result<Option<u32>, RowFault> {
    text.parse().map(Some).map_err(|_| RowFault::Word)
}

/// What a word says of a certificate.
fn add_word(
    alloc: Global,
    certificate: &mut PolicyCertificate<'static>,
    word: &str,
) -> Result<(), RowFault> {
    let extensions = &mut certificate.extensions;
    match word.split_once('=') {
        None if word == "s" => certificate.self_issued = true,
        None if word == "-" => {}
        Some(("p", letters)) => extensions.policies = Some(policies_of(alloc, letters)?),
        Some(("m", mappings)) => extensions.mappings = mappings_of(alloc, mappings)?,
        Some(("e", number)) => extensions.require_explicit_policy = number_of(number)?,
        Some(("i", number)) => extensions.inhibit_policy_mapping = number_of(number)?,
        Some(("x", number)) => extensions.inhibit_any_policy = number_of(number)?,
        _ => return Err(RowFault::Word),
    }
    Ok(())
}

fn certificate_of(alloc: Global, words: &str) -> Result<PolicyCertificate<'static>, RowFault> {
    let mut certificate = PolicyCertificate {
        self_issued: false,
        extensions: PolicyExtensions {
            policies: None,
            mappings: Vec::new(alloc),
            require_explicit_policy: None,
            inhibit_policy_mapping: None,
            inhibit_any_policy: None,
        },
    };
    for word in words.split_whitespace() {
        add_word(alloc, &mut certificate, word)?;
    }
    Ok(certificate)
}

/// Certificates, between which bars stand.
fn certificates_of(
    alloc: Global,
    texts: &str,
) -> Result<Vec<PolicyCertificate<'static>>, RowFault> {
    let mut certificates = Vec::new(alloc);
    for words in texts.split('|') {
        certificates.push(certificate_of(alloc, words)?)?;
    }
    Ok(certificates)
}

/// The policies by their letters, behind a word.
fn push_policies(text: &mut String, word: &str, policies: &[Oid<'_>]) -> Result<(), RowFault> {
    text.push_str(word)?;
    for policy in policies {
        let letter = match policy.contents() {
            [0x2A, letter] => *letter,
            _ => b'*',
        };
        text.push(char::from(letter))?;
    }
    Ok(())
}

/// An outcome as a row has it.
fn text_of(alloc: Global, outcome: &PolicyOutcome<'_>) -> Result<String, RowFault> {
    match outcome {
        PolicyOutcome::Bad(number, reason) => Ok(format!(in alloc; "bad {number} {reason:?}")?),
        PolicyOutcome::Good(sets) => {
            let mut text = format!(in alloc; "good")?;
            push_policies(&mut text, " A=", &sets.authority_constrained)?;
            push_policies(&mut text, " U=", &sets.user_constrained)?;
            Ok(text)
        }
    }
}

/// What a row asks, with what its query borrows.
#[derive(Drop)]
struct Question {
    certificates: Vec<PolicyCertificate<'static>>,
    initial_policies: Vec<Oid<'static>>,
    inhibit_policy_mapping: bool,
    require_explicit_policy: bool,
    inhibit_any_policy: bool,
}

impl Question {
    fn read(alloc: Global, inputs: &str, certificates: &str) -> Result<Question, RowFault> {
        let certificates = certificates_of(alloc, certificates)?;
        let user = inputs
            .split_whitespace()
            .find_map(|word| word.strip_prefix("user="))
            .ok_or(RowFault::Word)?;
        Ok(Question {
            certificates,
            initial_policies: policies_of(alloc, user)?,
            inhibit_policy_mapping: inputs.contains('M'),
            require_explicit_policy: inputs.contains('E'),
            inhibit_any_policy: inputs.contains('A'),
        })
    }

    fn query(&self) -> PolicyQuery<'_, 'static> {
        PolicyQuery {
            certificates: &self.certificates,
            initial_policies: &self.initial_policies,
            inhibit_policy_mapping: self.inhibit_policy_mapping,
            require_explicit_policy: self.require_explicit_policy,
            inhibit_any_policy: self.inhibit_any_policy,
        }
    }
}

/// What is answered to the inputs and the certificates of a row.
pub fn answer_to(alloc: Global, inputs: &str, certificates: &str) -> Result<String, RowFault> {
    let question = Question::read(alloc, inputs, certificates)?;
    let outcome = process_policies(alloc, &question.query())?;
    text_of(alloc, &outcome)
}

/// How many certificates have passed when the steps come to an outcome, and the outcome; `None` if they come to none.
fn steps_of<'c>(
    alloc: Global,
    query: PolicyQuery<'_, 'c>,
) -> Result<Option<(usize, PolicyOutcome<'c>)>, AllocError> {
    let most = query.certificates.len();
    let mut state = PolicyState::start(alloc, query)?;
    for passed in 0..=most {
        if state.done() != passed {
            return Ok(None);
        }
        match state.next(alloc)? {
            PolicyStep::Passed(next) => state = next,
            PolicyStep::Failed(number, reason) => {
                return Ok(Some((passed, PolicyOutcome::Bad(number, reason))));
            }
            PolicyStep::Ended(sets) => return Ok(Some((passed, PolicyOutcome::Good(sets)))),
        }
    }
    Ok(None)
}

/// How many certificates of a row pass one after the other, and what is answered then.
pub fn steps_to(
    alloc: Global,
    inputs: &str,
    certificates: &str,
) -> Result<(usize, String), RowFault> {
    let question = Question::read(alloc, inputs, certificates)?;
    match steps_of(alloc, question.query())? {
        None => Ok((0, format!(in alloc; "no outcome")?)),
        Some((passed, outcome)) => Ok((passed, text_of(alloc, &outcome)?)),
    }
}
