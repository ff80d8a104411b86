//! Paths whose policies are processed, found among certificates in any order, by lists of the two authorities.

use crate::asking::{MIDDLE, RowFault, inputs_of, octets_of, policies_of, row_of};
use crate::verdicts::{lists_of, text_of};
use asn::Oid;
use cert::{CertFault, Certificate};
use path_search::{Budget, Candidate, Options, Search};
use relying_policies::{
    FindingWithPolicies, PoliciesApart, SearchPolicies, find_with_policies, search_policies_apart,
};
use relying_search::FindingBudget;
use statements::Statement;
use std::alloc::Global;
use std::fmt::Write;
use std::test::Fail;
use vectors::ToyVerifier;

/// A search a line: the user-initial-policy-set and the inputs, as in the rows of `paths`; the certificates of the bag, the target, the lists
/// in the notation of `vectors`, and how many valid paths may be asked about; and the finding: the place of the anchor, a colon, the places
/// in the bag from the target upward, and the verdict with its policies; or the place of a certificate whose policies are malformed.
const ROWS: &str = "
* ; E ; ca-a / ee-a / crl(R,1) crl(A,1) / 9 ; 0 : 0 = valid A=a U=a
* ; E ; ca-none ca-a / ee-a / crl(R,1) crl(A,1) / 9 ; 0 : 1 = valid A=a U=a
* ; ; ca-none ca-a / ee-a / crl(R,1) crl(A,1) / 9 ; 0 : 0 = valid A= U=
* ; E ; ca-none ca-a / ee-a / crl(R,1) crl(A,1,[05]) / 9 ; 0 : 1 = revoked 2 A=a U=a
* ; E ; ca-none ca-a / ee-a / crl(R,1) / 9 ; 0 : 1 = unknown 2 A=a U=a
b ; E ; ca-a ca-ab-e0 / ee-ab / crl(R,1) crl(A,1) / 9 ; 0 : 1 = valid A=ab U=b
* ; ; ca-a-explicit / ee-a / crl(R,1) crl(A,1) / 9 ; 0 : 0 = valid A=a U=a
* ; ; ca-a-explicit / ee-b / crl(R,1) crl(A,1) / 9 ; none
* ; ; ca-a-explicit ca-a>b / ee-b / crl(R,1) crl(A,1) / 9 ; 0 : 1 = valid A=a U=a
* ; E ; ca-none / ee-a / crl(R,1) crl(A,1) / 9 ; none
* ; E ; ca-a / ee-a-forged / crl(R,1) crl(A,1) / 9 ; none
* ; E ; ca-none / ee-a / crl(R,1) crl(A,1) / 1 ; none
* ; E ; ca-none ca-a / ee-a / crl(R,1) crl(A,1) / 2 ; 0 : 1 = valid A=a U=a
* ; E ; ca-none ca-a / ee-a / crl(R,1) crl(A,1) / 1 ; gave up
* ; E ; ca-a / ee-a / crl(R,1) crl(A,1) / 0 ; gave up
* ; E ; ca-none / ee-empty / crl(R,1) crl(A,1) / 9 ; malformed 1
* ; E ; ca-none ee-empty / ee-a / crl(R,1) crl(A,1) / 9 ; malformed 1
";

/// The certificates of a search, and what of them and of the user's policies counts.
#[derive(Drop)]
struct Asked<'c> {
    anchors: Vec<Certificate<'c>>,
    bag: Vec<Certificate<'c>>,
    target: Certificate<'c>,
    policies: PoliciesApart<'c>,
    user: Vec<Oid<'c>>,
}

impl<'c> Asked<'c> {
    fn search(&self) -> Search<'_, 'c> {
        Search {
            anchors: self.anchors.as_slice(),
            bag: self.bag.as_slice(),
            target: &self.target,
            moment: MIDDLE,
            purpose: None,
            options: Options::stated(),
        }
    }

    fn policies(&self, inputs: &str) -> SearchPolicies<'_, 'c> {
        SearchPolicies {
            bag: self.policies.bag.as_slice(),
            target: &self.policies.target,
            inputs: inputs_of(&self.user, inputs),
        }
    }
}

fn certificates_of(alloc: Global, octets: &[Vec<u8>]) -> Result<Vec<Certificate<'_>>, RowFault> {
    let mut read = Vec::new(alloc);
    for text in octets {
        read.push(Certificate::read(alloc, text)?)?;
    }
    Ok(read)
}

fn malformed((place, fault): (usize, CertFault)) -> RowFault {
    match fault {
        CertFault::Memory => RowFault::Memory,
        CertFault::Refused(_, _) => RowFault::Malformed(place),
    }
}

/// A search among certificates, of which the first is the anchor, and the last the target.
fn asked_of<'c>(alloc: Global, octets: &'c [Vec<u8>], user: &str) -> Result<Asked<'c>, RowFault> {
    let (anchor, behind) = octets.split_at_checked(1).ok_or(RowFault::Word)?;
    let anchors = certificates_of(alloc, anchor)?;
    let mut bag = certificates_of(alloc, behind)?;
    let mut target = bag.pop().ok_or(RowFault::Word)?;
    let policies = search_policies_apart(alloc, &mut bag, &mut target).map_err(malformed)?;
    Ok(Asked {
        anchors,
        bag,
        target,
        policies,
        user: policies_of(alloc, user)?,
    })
}

fn statements_in(alloc: Global, octets: &[Vec<u8>]) -> Result<Vec<Statement<'_>>, RowFault> {
    let mut read = Vec::new(alloc);
    for text in octets {
        read.push(Statement::read(alloc, text)?)?;
    }
    Ok(read)
}

/// The place of the anchor, and those in the bag.
fn push_path(text: &mut String, path: &Candidate) -> Result<(), RowFault> {
    write!(text, "{} :", path.anchor).map_err(|_| RowFault::Memory)?;
    for place in &path.above {
        write!(text, " {place}").map_err(|_| RowFault::Memory)?;
    }
    text.push_str(" = ")?;
    Ok(())
}

/// The finding as a row has it.
fn finding_text(alloc: Global, finding: &FindingWithPolicies<'_>) -> Result<String, RowFault> {
    match finding {
        FindingWithPolicies::NotFound => Ok(String::from_str(alloc, "none")?),
        FindingWithPolicies::GaveUp => Ok(String::from_str(alloc, "gave up")?),
        FindingWithPolicies::Found(path, answer) => {
            let mut text = String::new(alloc);
            push_path(&mut text, path)?;
            text.push_str(&text_of(alloc, answer)?)?;
            Ok(text)
        }
    }
}

fn budget_of(verdicts: usize) -> FindingBudget {
    let search = Budget {
        signatures: 100,
        steps: 100,
    };
    FindingBudget { search, verdicts }
}

/// The parts of the third column: the bag, the target, the lists, and how many valid paths may be asked about.
fn parts_of(texts: &str) -> Option<(&str, &str, &str, usize)> {
    let mut parts = texts.split('/').map(str::trim);
    let (bag, target, lists) = (parts.next()?, parts.next()?, parts.next()?);
    Some((bag, target, lists, parts.next()?.parse().ok()?))
}

/// What is found of what the row asks.
fn found_of(alloc: Global, user: &str, inputs: &str, texts: &str) -> Result<String, RowFault> {
    let (bag, target, lists, verdicts) = parts_of(texts).ok_or(RowFault::Word)?;
    let octets = octets_of(alloc, &format!(in alloc; "anchor {bag} {target}")?)?;
    let lists = lists_of(alloc, lists)?;
    let statements = statements_in(alloc, &lists)?;
    let asked = asked_of(alloc, &octets, user)?;
    let finding = find_with_policies(
        alloc,
        &ToyVerifier,
        &asked.search(),
        &asked.policies(inputs),
        &statements,
        budget_of(verdicts),
    )?;
    finding_text(alloc, &finding)
}

/// The same, and the place of a certificate whose policies are malformed.
fn answer_to(alloc: Global, user: &str, inputs: &str, texts: &str) -> Result<String, RowFault> {
    match found_of(alloc, user, inputs, texts) {
        Err(RowFault::Malformed(place)) => Ok(format!(in alloc; "malformed {place}")?),
        answer => answer,
    }
}

#[test]
fn each_row_has_its_finding(rt: HostRuntime) -> Result<(), Fail> {
    for line in ROWS.lines().filter(|line| line.contains(';')) {
        let row = row_of(line);
        let found = answer_to(rt.alloc(), row.user, row.inputs, row.names);
        let found = found.map_err(|_| "a finding")?;
        assert_eq!(rt; found.as_str(), row.wanted, "{line}");
    }
    Ok(())
}

#[test]
fn no_search_is_lost(rt: HostRuntime) {
    assert_eq!(rt; ROWS.lines().filter(|line| line.contains(';')).count(), 17);
}

#[test]
fn searches_want_memory_or_answer(rt: HostRuntime) {
    let texts = "ca-none ca-a / ee-a / crl(R,1) crl(A,1) / 2";
    match found_of(rt.alloc(), "*", "E", texts) {
        Ok(found) => assert_eq!(rt; found.as_str(), "0 : 1 = valid A=a U=a"),
        Err(fault) => assert_eq!(rt; fault, RowFault::Memory),
    }
}
