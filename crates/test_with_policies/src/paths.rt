//! Which of the two, the path and its policies, is refused first.

use crate::asking::{
    RowFault, bad, inputs_of, octets_of, policies_of, push_sets, question, row_of,
};
use cert::{CertFault, CertRule, Certificate};
use path::{Outcome, QueryFault, Reason, validate};
use path_with_policies::{OutcomeWithPolicies, validate_with_policies};
use std::alloc::Global;
use std::test::Fail;
use vectors::ToyVerifier;

/// A question a line: the user-initial-policy-set, a letter each policy; the inputs `E`, `M` and `A`; the certificates, the anchor first; and the
/// answer: the sets of the authorities and of the user, or the certificate that is refused, and why.
const ROWS: &str = "
* ; ; anchor ca-a ee-a ; good A=a U=a
* ; ; anchor ca-a ee-b ; good A= U=
* ; E ; anchor ca-a ee-b ; bad 2 17 NoValidPolicy
* ; ; anchor ca-a>b ee-b ; good A=a U=a
* ; M ; anchor ca-a>b ee-b ; good A= U=
* ; EM ; anchor ca-a>b ee-b ; bad 2 17 NoValidPolicy
* ; ; anchor ca-a>b ee-a ; good A= U=
* ; ; anchor ca-a-explicit ee-a ; good A=a U=a
* ; ; anchor ca-a-explicit ee-b ; bad 2 17 NoValidPolicy
* ; ; anchor ca-none-explicit ee-a ; bad 2 17 NoValidPolicy
* ; ; anchor ca-any-inhibited ee-a ; good A=a U=a
* ; ; anchor ca-any-inhibited ee-any ; good A= U=
* ; E ; anchor ca-any-inhibited ee-any ; bad 2 17 NoValidPolicy
* ; ; anchor ca-a ee-any ; good A=a U=a
* ; A ; anchor ca-a ee-any ; good A= U=
* ; E ; anchor ca-a ee-none ; bad 2 17 NoValidPolicy
* ; ; anchor ca-any>b ee-b ; bad 1 18 AnyPolicyMapped
a ; E ; anchor ca-a ee-a ; good A=a U=a
b ; E ; anchor ca-a ee-a ; bad 2 19 NoUserPolicy
b ; ; anchor ca-a ee-a ; good A=a U=
ab ; E ; anchor ca-a ee-a ; good A=a U=a
a ; E ; anchor ca-any>b ee-a-forged ; bad 1 18 AnyPolicyMapped
* ; ; anchor ca-any>b-forged ee-b ; bad 1 2 Signature
* ; E ; anchor ca-a ee-a-forged ; bad 2 2 Signature
b ; E ; anchor ca-a ee-a-forged ; bad 2 2 Signature
* ; E ; anchor ca-a ee-b-expired ; bad 2 4 Expired
* ; E ; anchor ; bad 0 15 Empty
";

fn text_of(alloc: Global, outcome: &OutcomeWithPolicies<'_>) -> Result<String, RowFault> {
    match outcome {
        OutcomeWithPolicies::Bad(number, reason) => bad(alloc, *number, *reason),
        OutcomeWithPolicies::Good(sets) => {
            let mut text = format!(in alloc; "good")?;
            push_sets(&mut text, sets)?;
            Ok(text)
        }
    }
}

/// What is answered to a row.
pub fn answer_to(alloc: Global, user: &str, inputs: &str, names: &str) -> Result<String, RowFault> {
    let octets = octets_of(alloc, names)?;
    let policies = policies_of(alloc, user)?;
    let query = question(alloc, &octets, inputs_of(&policies, inputs))?;
    let outcome = validate_with_policies(alloc, &ToyVerifier, &query)?;
    text_of(alloc, &outcome)
}

#[test]
fn each_row_has_its_answer(rt: HostRuntime) -> Result<(), Fail> {
    for line in ROWS.lines().filter(|line| line.contains(';')) {
        let row = row_of(line);
        let answer = answer_to(rt.alloc(), row.user, row.inputs, row.names);
        let answer = answer.map_err(|_| "an answer")?;
        assert_eq!(rt; answer.as_str(), row.wanted, "{line}");
    }
    Ok(())
}

#[test]
fn no_row_is_lost(rt: HostRuntime) {
    assert_eq!(rt; ROWS.lines().filter(|line| line.contains(';')).count(), 27);
}

/// What validation answers that does not process policies.
fn without_policies(alloc: Global, names: &str) -> Result<Outcome, RowFault> {
    let octets = octets_of(alloc, names)?;
    let mut read = Vec::new(alloc);
    for text in octets.as_slice() {
        let certificate = Certificate::read(alloc, text).map_err(|_| RowFault::Word)?;
        read.push(certificate)?;
    }
    let Some((anchor, path)) = read.split_first() else {
        return Err(RowFault::Word);
    };
    let moment = crate::asking::MIDDLE;
    Ok(validate(alloc, &ToyVerifier, anchor, path, moment, None)?)
}

#[test]
fn who_does_not_ask_sees_no_policies(rt: HostRuntime) -> Result<(), Fail> {
    let refused = without_policies(rt.alloc(), "anchor ca-a>b ee-b").map_err(|_| "an answer")?;
    assert_eq!(rt; refused, Outcome::Bad(1, Reason::Policy));
    let good = without_policies(rt.alloc(), "anchor ca-a ee-b").map_err(|_| "an answer")?;
    assert_eq!(rt; good, Outcome::Good);
    Ok(())
}

#[test]
fn malformed_policies_are_refused_with_their_certificate(rt: HostRuntime) {
    // The list of policies stands from 104 on, and its first one is missing at 106.
    let fault = CertFault::Refused(CertRule::ExtensionValue, 106);
    let refused = answer_to(rt.alloc(), "*", "", "anchor ca-a ee-empty");
    let Err(RowFault::Refused(refused)) = refused else {
        assert!(rt; false, "no refusal");
        return;
    };
    assert_eq!(rt;
        refused,
        QueryFault {
            certificate: 2,
            fault
        }
    );
}
