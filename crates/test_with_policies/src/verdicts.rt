//! Verdicts on paths whose policies are processed, by lists of the two authorities.

use crate::asking::{
    RowFault, bad, inputs_of, octets_of, policies_of, push_sets, question, row_of,
};
use relying_agreement::Verdict;
use relying_policies::{VerdictWithPolicies, verdict_with_policies};
use statements::Statement;
use std::alloc::Global;
use std::test::Fail;
use vectors::{NotationFault, ToyVerifier, revocation_list};

/// As the rows of `paths`, and behind the certificates, behind a stroke, the lists in the notation of `vectors`.
const ROWS: &str = "
* ; E ; anchor ca-a ee-a / crl(R,1) crl(A,1) ; valid A=a U=a
b ; ; anchor ca-a ee-a / crl(R,1) crl(A,1) ; valid A=a U=
* ; ; anchor ca-a>b ee-b / crl(R,1) crl(A,1) ; valid A=a U=a
* ; E ; anchor ca-a ee-a / crl(R,1) crl(A,1,[05]) ; revoked 2 A=a U=a
* ; E ; anchor ca-a ee-a / crl(R,1) ; unknown 2 A=a U=a
* ; E ; anchor ca-a ee-b / crl(R,1) crl(A,1,[05]) ; bad 2 17 NoValidPolicy
b ; E ; anchor ca-a ee-a / crl(R,1) crl(A,1) ; bad 2 19 NoUserPolicy
* ; E ; anchor ca-a ee-a-forged / crl(R,1) crl(A,1) ; bad 2 2 Signature
";

pub fn lists_of(alloc: Global, texts: &str) -> Result<Vec<Vec<u8>>, RowFault> {
    let mut lists = Vec::new(alloc);
    for text in texts.split_whitespace() {
        match revocation_list(alloc, text) {
            Ok(list) => lists.push(list)?,
            Err(NotationFault::Memory) => return Err(RowFault::Memory),
            Err(_) => return Err(RowFault::Word),
        }
    }
    Ok(lists)
}

/// A word, and the policies.
fn told(alloc: Global, word: &str, answer: &VerdictWithPolicies<'_>) -> Result<String, RowFault> {
    let Some(sets) = &answer.policies else {
        return Err(RowFault::Word);
    };
    let mut text = String::from_str(alloc, word)?;
    push_sets(&mut text, sets)?;
    Ok(text)
}

pub fn text_of(alloc: Global, answer: &VerdictWithPolicies<'_>) -> Result<String, RowFault> {
    match answer.verdict {
        Verdict::Invalid(number, reason) => bad(alloc, number, reason),
        Verdict::Revoked(2, _) => told(alloc, "revoked 2", answer),
        Verdict::Unknown(2) => told(alloc, "unknown 2", answer),
        Verdict::Valid => told(alloc, "valid", answer),
        Verdict::Revoked(_, _) | Verdict::Unknown(_) => Err(RowFault::Word),
    }
}

fn answer_by(
    alloc: Global,
    octets: &[Vec<u8>],
    lists: &[Vec<u8>],
    user: &str,
    inputs: &str,
) -> Result<String, RowFault> {
    let policies = policies_of(alloc, user)?;
    let query = question(alloc, octets, inputs_of(&policies, inputs))?;
    let mut statements = Vec::new(alloc);
    for list in lists {
        statements.push(Statement::read(alloc, list).map_err(|_| RowFault::Word)?)?;
    }
    let answer = verdict_with_policies(alloc, &ToyVerifier, &query, &statements)?;
    text_of(alloc, &answer)
}

fn answer_to(alloc: Global, user: &str, inputs: &str, texts: &str) -> Result<String, RowFault> {
    let Some((names, lists)) = texts.split_once('/') else {
        return Err(RowFault::Word);
    };
    let (octets, lists) = (octets_of(alloc, names)?, lists_of(alloc, lists)?);
    answer_by(alloc, &octets, &lists, user, inputs)
}

#[test]
fn each_row_has_its_verdict(rt: HostRuntime) -> Result<(), Fail> {
    for line in ROWS.lines().filter(|line| line.contains(';')) {
        let row = row_of(line);
        let answer = answer_to(rt.alloc(), row.user, row.inputs, row.names);
        let answer = answer.map_err(|_| "an answer")?;
        assert_eq!(rt; answer.as_str(), row.wanted, "{line}");
    }
    Ok(())
}

#[test]
fn no_row_is_lost(rt: HostRuntime) {
    assert_eq!(rt; ROWS.lines().filter(|line| line.contains(';')).count(), 8);
}
