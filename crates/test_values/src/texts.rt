//! Faults as they are printed: number, sentence and place.

use cert::{CertFault, CertRule};
use der::{Fault, Rule};
use der_stream::ReadFault;
use der_tree::EncodeFault;
use names::NameRule;
use path::Reason;
use relying::DeliverFault;
use relying_texts::StatementsFault;
use relying_verdicts::{Fault as PartyFault, QueryFault};
use statements_parts::{ReadingFault, StatementFault, StatementRule};
use std::alloc::AllocError;
use std::fmt::Display;
use std::test::Fail;
use store_sql::StoreFault;

// Whether the value is printed so.
fn prints<T: Display>(rt: &HostRuntime, value: &T, text: &str) -> Result<bool, AllocError> {
    let printed = format!(in rt.alloc(); "{value}")?;
    Ok(printed.as_str() == text)
}

const RULE: &[(Rule, &str)] = &[
    (
        Rule::TagForm,
        "fault 1: identifier octet that is not served",
    ),
    (
        Rule::LengthForm,
        "fault 2: length octets that are not the shortest",
    ),
    (Rule::TooLong, "fault 3: contents past the limit"),
    (Rule::Truncated, "fault 4: value cut short"),
    (Rule::TooDeep, "fault 5: value nested too deep"),
    (
        Rule::Content,
        "fault 6: contents that the type does not allow",
    ),
    (Rule::Trailing, "fault 7: octets behind the value"),
];

#[test]
fn rules_are_printed(rt: HostRuntime) -> Result<(), Fail> {
    for (value, text) in RULE {
        assert!(rt; prints(&rt, value, text)?, "{text}");
    }
    Ok(())
}

const FAULT: &[(Fault, &str)] = &[
    (
        Fault::Refused(Rule::TagForm, 17),
        "fault 1: identifier octet that is not served, at offset 17",
    ),
    (Fault::Memory, "fault 8: no memory"),
];

#[test]
fn faults_are_printed(rt: HostRuntime) -> Result<(), Fail> {
    for (value, text) in FAULT {
        assert!(rt; prints(&rt, value, text)?, "{text}");
    }
    Ok(())
}

const READ_FAULT: &[(ReadFault, &str)] = &[
    (ReadFault::Fault(Fault::Memory), "fault 8: no memory"),
    (ReadFault::Limit, "fault 10: value past the limit"),
    (ReadFault::Io, "source that cannot be read"),
];

#[test]
fn read_faults_are_printed(rt: HostRuntime) -> Result<(), Fail> {
    for (value, text) in READ_FAULT {
        assert!(rt; prints(&rt, value, text)?, "{text}");
    }
    Ok(())
}

const ENCODE_FAULT: &[(EncodeFault, &str)] = &[
    (EncodeFault::Memory, "no memory"),
    (EncodeFault::NotSpellable, "no octets encode the tree"),
];

#[test]
fn encode_faults_are_printed(rt: HostRuntime) -> Result<(), Fail> {
    for (value, text) in ENCODE_FAULT {
        assert!(rt; prints(&rt, value, text)?, "{text}");
    }
    Ok(())
}

const NAME_RULE: &[(NameRule, &str)] = &[
    (NameRule::NameLayout, "fault 11: not the layout of a name"),
    (
        NameRule::RdnRepeat,
        "fault 12: attribute type repeated in one RDN",
    ),
    (
        NameRule::SetOrder,
        "fault 13: attributes of an RDN out of order",
    ),
    (NameRule::Text, "fault 14: not a string of its type"),
    (NameRule::DnsForm, "fault 15: not a DNS name"),
    (NameRule::IpForm, "fault 16: not an IP address"),
    (
        NameRule::MaskForm,
        "fault 17: not a mask of ones and then zeros",
    ),
    (NameRule::MailForm, "fault 18: not a mail address"),
    (NameRule::UriForm, "fault 19: not a constraint on URIs"),
];

#[test]
fn name_rules_are_printed(rt: HostRuntime) -> Result<(), Fail> {
    for (value, text) in NAME_RULE {
        assert!(rt; prints(&rt, value, text)?, "{text}");
    }
    Ok(())
}

const REASON: &[(Reason, &str)] = &[
    (Reason::Repeated, "certificate repeated"),
    (Reason::Signature, "signature"),
    (Reason::NotYet, "not yet valid"),
    (Reason::Expired, "expired"),
    (Reason::Issuer, "another issuer"),
    (Reason::NotPermitted, "name not permitted"),
    (Reason::Excluded, "name excluded"),
    (
        Reason::ConstraintForm,
        "constraint of a form that is not processed",
    ),
    (Reason::NotCa, "no authority"),
    (Reason::PathLength, "path too long for a path length"),
    (Reason::KeyCertSign, "key may not sign certificates"),
    (Reason::Policy, "policy processing wanted"),
    (Reason::CriticalUnknown, "critical extension not recognised"),
    (Reason::Purpose, "another purpose"),
    (Reason::Empty, "no certificate"),
    (Reason::TooLong, "too many certificates"),
    (
        Reason::NoValidPolicy,
        "a policy is required, and none is valid",
    ),
    (Reason::AnyPolicyMapped, "anyPolicy is mapped"),
    (
        Reason::NoUserPolicy,
        "a policy is required, and none of the user's is valid",
    ),
];

#[test]
fn reasons_are_printed(rt: HostRuntime) -> Result<(), Fail> {
    for (value, text) in REASON {
        assert!(rt; prints(&rt, value, text)?, "{text}");
    }
    Ok(())
}

const STATEMENT_RULE: &[(StatementRule, &str)] = &[
    (
        StatementRule::Der(Rule::TooDeep),
        "fault 41: not DER: fault 5: value nested too deep",
    ),
    (
        StatementRule::Name(NameRule::SetOrder),
        "fault 13: attributes of an RDN out of order",
    ),
    (
        StatementRule::Layout,
        "fault 42: value that the layout does not have there",
    ),
    (StatementRule::NotV2, "fault 43: version other than 2"),
    (StatementRule::NoNumber, "fault 44: no CRL number"),
    (
        StatementRule::NumberRange,
        "fault 45: CRL number out of range",
    ),
    (StatementRule::NoNextUpdate, "fault 46: no next update"),
    (StatementRule::Delta, "fault 47: delta list"),
    (StatementRule::Scope, "fault 48: scope that is not served"),
    (StatementRule::Indirect, "fault 49: entry of another issuer"),
    (
        StatementRule::CriticalUnknown,
        "fault 50: critical extension that is not known",
    ),
    (
        StatementRule::BadReason,
        "fault 51: reason that does not exist",
    ),
    (
        StatementRule::RemoveInComplete,
        "fault 52: removal in a complete list",
    ),
    (
        StatementRule::NotSuccessful(6),
        "fault 55: response that is not successful, of status 6",
    ),
    (
        StatementRule::ResponseType,
        "fault 56: response of another type",
    ),
    (
        StatementRule::TooManySingles,
        "fault 59: too many single responses",
    ),
];

#[test]
fn statement_rules_are_printed(rt: HostRuntime) -> Result<(), Fail> {
    for (value, text) in STATEMENT_RULE {
        assert!(rt; prints(&rt, value, text)?, "{text}");
    }
    Ok(())
}

const STATEMENT_FAULT: &[(StatementFault, &str)] = &[
    (
        StatementFault::Refused(StatementRule::Delta, 40),
        "fault 47: delta list, at offset 40",
    ),
    (
        StatementFault::OtherIssuer,
        "fault 53: list of another issuer",
    ),
    (
        StatementFault::BadSignature,
        "fault 54: signature that is not accepted",
    ),
    (
        StatementFault::NoSigner,
        "fault 57: response without a signer",
    ),
    (
        StatementFault::NothingForIssuer,
        "fault 58: response that says nothing for the issuer",
    ),
    (StatementFault::Memory, "fault 60: no memory"),
];

#[test]
fn statement_faults_are_printed(rt: HostRuntime) -> Result<(), Fail> {
    for (value, text) in STATEMENT_FAULT {
        assert!(rt; prints(&rt, value, text)?, "{text}");
    }
    Ok(())
}

const STORE_FAULT: &[(StoreFault, &str)] = &[
    (StoreFault::Store, "fault 71: the database refused"),
    (
        StoreFault::Schema,
        "fault 72: the tables are not those of a store",
    ),
    (StoreFault::Memory, "fault 73: no memory"),
];

#[test]
fn store_faults_are_printed(rt: HostRuntime) -> Result<(), Fail> {
    for (value, text) in STORE_FAULT {
        assert!(rt; prints(&rt, value, text)?, "{text}");
    }
    Ok(())
}

const DELIVER_FAULT: &[(DeliverFault, &str)] = &[
    (
        DeliverFault::Issuer(CertFault::Memory),
        "the issuer's certificate is refused: fault 33: no memory",
    ),
    (
        DeliverFault::Statement(StatementFault::NoSigner),
        "the statement is refused: fault 57: response without a signer",
    ),
    (
        DeliverFault::Store(StoreFault::Schema),
        "the store does not take it: fault 72: the tables are not those of a store",
    ),
];

#[test]
fn deliver_faults_are_printed(rt: HostRuntime) -> Result<(), Fail> {
    for (value, text) in DELIVER_FAULT {
        assert!(rt; prints(&rt, value, text)?, "{text}");
    }
    Ok(())
}

const PARTY_FAULT: &[(PartyFault, &str)] = &[
    (
        PartyFault::Store(StoreFault::Store),
        "the store does not answer: fault 71: the database refused",
    ),
    (PartyFault::Memory, "no memory"),
];

#[test]
fn party_faults_are_printed(rt: HostRuntime) -> Result<(), Fail> {
    for (value, text) in PARTY_FAULT {
        assert!(rt; prints(&rt, value, text)?, "{text}");
    }
    Ok(())
}

#[test]
fn refused_statements_are_printed(rt: HostRuntime) -> Result<(), Fail> {
    let refused = StatementsFault {
        statement: 1,
        fault: ReadingFault::Refused(StatementRule::Layout, 300),
    };
    let text = "statement 1 is refused: \
        fault 42: value that the layout does not have there, at offset 300";
    assert!(rt; prints(&rt, &refused, text)?);
    Ok(())
}

#[test]
fn refused_certificates_of_a_question_are_printed(rt: HostRuntime) -> Result<(), Fail> {
    let refused = QueryFault {
        certificate: 2,
        fault: CertFault::Refused(CertRule::Serial, 7),
    };
    let text = "certificate 2 of the path is refused: \
        fault 25: serial number of no octets or of more than 32, at offset 7";
    assert!(rt; prints(&rt, &refused, text)?);
    Ok(())
}
