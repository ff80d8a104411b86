//! How the structs lie in memory: as `x509check.h` says.

use super::*;
use capi_values::{
    Asked, FindingAnswer, Limits, NumberedObstacle, Part, Place, PolicyAnswer, PolicyInputsOfTexts,
    QueryOfTexts, Refusal, SearchOfTexts, SignatureQuestion, Text, VerdictAnswer, WhyNotAnswer,
};
use std::alloc::AllocError;
use std::fmt::Debug;
use std::test::Fail;

#[test]
fn structs_have_their_sizes(rt: HostRuntime) {
    const SIZES: [usize; 20] = [
        size_of::<Text<'static>>(),
        size_of::<QueryOfTexts<'static>>(),
        size_of::<Limits>(),
        size_of::<SearchOfTexts<'static>>(),
        size_of::<Part>(),
        size_of::<Answer>(),
        size_of::<ExtensionFields>(),
        size_of::<Fields>(),
        size_of::<CertificateAnswer>(),
        size_of::<Refusal>(),
        size_of::<VerdictAnswer>(),
        size_of::<FindingAnswer>(),
        size_of::<Place>(),
        size_of::<SignatureQuestion>(),
        size_of::<Asked>(),
        size_of::<SpeakingAnswer>(),
        size_of::<NumberedObstacle>(),
        size_of::<WhyNotAnswer>(),
        size_of::<PolicyInputsOfTexts<'static>>(),
        size_of::<PolicyAnswer>(),
    ];
    assert!(rt;
        SIZES
            == [
                16, 64, 24, 104, 16, 16, 56, 208, 224, 32, 48, 56, 32, 160, 40, 24, 16, 64, 32, 72
            ]
    );
}

/// Whether the struct is printed so.
fn prints<T: Debug>(rt: &HostRuntime, value: &T, text: &str) -> Result<bool, AllocError> {
    let printed = format!(in rt.alloc(); "{value:?}")?;
    Ok(printed.as_str() == text)
}

const QUERY: &str = "QueryOfTexts { anchor: Text { octets: [] }, path: [], moment: 0, \
    purpose: Text { octets: [] }, wide: 0 }";

const SEARCH: &str =
    "SearchOfTexts { anchors: [], target: Text { octets: [] }, bag: [], moment: 0, \
    purpose: Text { octets: [] }, limits: Limits { signatures: 0, steps: 0, verdicts: 0 }, wide: 0 }";

const CERTIFICATE: &str = "CertificateAnswer { fault: 0, der_fault: 0, offset: 0, \
    fields: Fields { version: 0, not_before: 0, not_after: 0, \
    tbs: Part { offset: 0, length: 0 }, serial: Part { offset: 0, length: 0 }, \
    algorithm: Part { offset: 0, length: 0 }, issuer: Part { offset: 0, length: 0 }, \
    subject: Part { offset: 0, length: 0 }, \
    subject_public_key_info: Part { offset: 0, length: 0 }, \
    key: Part { offset: 0, length: 0 }, signature: Part { offset: 0, length: 0 }, \
    extensions: ExtensionFields { has_basic_constraints: false, is_authority: false, \
    has_path_length: false, has_key_usage: false, needs_policy_processing: false, \
    no_check: false, path_length: 0, key_usage: 0, alternative_names: 0, \
    permitted_subtrees: 0, excluded_subtrees: 0, purposes: 0, unrecognised: 0 } } }";

const VERDICT: &str = "VerdictAnswer { verdict: 0, reason: 0, certificate: 0, \
    refusal: Refusal { text: 0, fault: 0, der_fault: 0, index: 0, offset: 0 } }";

const FINDING: &str =
    "FindingAnswer { verdict: VerdictAnswer { verdict: 0, reason: 0, certificate: 0, \
    refusal: Refusal { text: 0, fault: 0, der_fault: 0, index: 0, offset: 0 } }, path_count: 0 }";

const ASKED: &str = "Asked { \
    refusal: Refusal { text: 0, fault: 0, der_fault: 0, index: 0, offset: 0 }, count: 0 }";

const OBSTACLE: &str = "NumberedObstacle { certificate: 0, reason: 0 }";

const WHY_NOT: &str =
    "WhyNotAnswer { why: 0, reason: 0, above_count: 0, anchor_count: 0, obstacle_count: 0, \
    refusal: Refusal { text: 0, fault: 0, der_fault: 0, index: 0, offset: 0 } }";

const POLICY_INPUTS: &str = "PolicyInputsOfTexts { initial_policies: [], \
    inhibit_policy_mapping: 0, require_explicit_policy: 0, inhibit_any_policy: 0 }";

const POLICY_ANSWER: &str =
    "PolicyAnswer { verdict: VerdictAnswer { verdict: 0, reason: 0, certificate: 0, \
    refusal: Refusal { text: 0, fault: 0, der_fault: 0, index: 0, offset: 0 } }, \
    authority_count: 0, user_count: 0, octet_count: 0 }";

const SPEAKING: &str = "SpeakingAnswer { speaks: 0, fault: 0, der_fault: 0, offset: 0 }";

const QUESTION: &str = "SignatureQuestion { \
    algorithm: Place { text: 0, index: 0, offset: 0, length: 0 }, \
    key_info: Place { text: 0, index: 0, offset: 0, length: 0 }, \
    message: Place { text: 0, index: 0, offset: 0, length: 0 }, \
    signature: Place { text: 0, index: 0, offset: 0, length: 0 }, \
    fingerprint: [0, 0, 0, 0, 0, 0, 0, 0, 0, 0, 0, 0, 0, 0, 0, 0, 0, 0, 0, 0, 0, 0, 0, 0, 0, 0, 0, 0, \
    0, 0, 0, 0] }";

/// In a struct of `repr(C)` the fields lie in the order of the source, in which `Debug` prints them; it is the header's.
#[test]
fn structs_have_their_fields_in_order(rt: HostRuntime) -> Result<(), Fail> {
    let none = Text { octets: b"" };
    let query = QueryOfTexts {
        anchor: none,
        path: &[],
        moment: 0,
        purpose: none,
        wide: 0,
    };
    assert!(rt; prints(&rt, &query, QUERY)?);
    assert!(rt; prints(&rt, &FindingAnswer::default(), FINDING)?);
    assert!(rt; prints(&rt, &Answer::default(), "Answer { fault: 0, offset: 0 }")?);
    assert!(rt; prints(&rt, &CertificateAnswer::default(), CERTIFICATE)?);
    assert!(rt; prints(&rt, &VerdictAnswer::default(), VERDICT)?);
    assert!(rt; prints(&rt, &Asked::default(), ASKED)?);
    assert!(rt; prints(&rt, &NumberedObstacle::default(), OBSTACLE)?);
    assert!(rt; prints(&rt, &WhyNotAnswer::default(), WHY_NOT)?);
    assert!(rt; prints(&rt, &SpeakingAnswer::default(), SPEAKING)?);
    assert!(rt; prints(&rt, &SignatureQuestion::default(), QUESTION)?);
    Ok(())
}

/// A search among nothing.
fn search_of<'a>(texts: &'a [Text<'a>], target: Text<'a>) -> SearchOfTexts<'a> {
    SearchOfTexts {
        anchors: texts,
        target,
        bag: texts,
        moment: 0,
        purpose: target,
        limits: Limits::default(),
        wide: 0,
    }
}

#[test]
fn policies_have_their_fields_in_order(rt: HostRuntime) -> Result<(), Fail> {
    let inputs = PolicyInputsOfTexts {
        initial_policies: &[],
        inhibit_policy_mapping: 0,
        require_explicit_policy: 0,
        inhibit_any_policy: 0,
    };
    assert!(rt; prints(&rt, &inputs, POLICY_INPUTS)?);
    assert!(rt; prints(&rt, &PolicyAnswer::default(), POLICY_ANSWER)?);
    Ok(())
}

#[test]
fn a_search_has_its_fields_in_order(rt: HostRuntime) -> Result<(), Fail> {
    let search = search_of(&[], Text { octets: b"" });
    assert!(rt; prints(&rt, &search, SEARCH)?);
    Ok(())
}
