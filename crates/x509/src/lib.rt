//! X.509 certificates, and whether one may be believed at a moment (RFC 5280; RFC 6960, 4.2): the crate that a program names.
//!
//! It passes on the whole public surface of the library, and has nothing of its own.
//!
//! A verdict on the certificate of a mail server, from octets, in six steps.
//!
//! 1. **Judge signatures.** The library has no cryptography of its own. Implement [`Verifier`] over a library that has: its `judge` is
//!    asked whether a signature of a message is good under a key. [`ListVerifier`] is one that believes a list of fingerprints.
//! 2. **Read.** Octets are DER. What is read borrows them. A refusal has a number, and an offset if a value in the octets is at fault.
//!
//!        let anchor = Certificate::read(alloc, anchor_octets)?;
//!
//! 3. **Validate a path** (RFC 5280, 6.1), if you need nothing else: from below the anchor down to the certificate in question, at a
//!    moment in seconds from 1970-01-01T00:00:00Z. The answer is [`Outcome::Good`], or the first certificate that fails and why.
//!
//!        let outcome = validate(alloc, &verifier, &anchor, &path, moment, None)?;
//!
//!    `search::find` finds such a path, if the certificates come in any order and there are many anchors, and `identities::speaks_for` says
//!    whether the names of the last certificate are those of the host that you meant.
//!
//! 4. **Hold statements.** A [`Store`] is a database, over files of the system ([`Store::open`], [`Store::make`]) or over a disk in memory.
//!    It keeps the newest list of each issuer and scope, and the newest response for each certificate. A [`Node`] is a store with a
//!    verifier: it takes statements in any order and however often, and believes what the issuer or its delegate signed.
//!
//!        let mut node = Node::new(verifier, store);
//!        let counts = node.deliver(alloc, issuer_octets, list_octets)?;
//!
//! 5. **Ask for a verdict** ([`Verdict`]): is the path valid, does a current statement speak of each certificate, and does one revoke
//!    it? The store survives a restart, and a crash leaves each delivery whole or absent.
//!
//!        let query = Query::read(alloc, anchor_octets, &path_octets, moment, purpose)?;
//!        let verdict = node.verdict(alloc, &query)?;
//!
//!    `node.find` searches for the path and gives its verdict in one call, and goes on to the next path if one is not `Valid`.
//!
//!    A program that keeps no store hands over its statements each time. `at_hand::verdict` answers what a party would that began with
//!    nothing and was delivered all of them.
//!
//!        let statements = [Statement::read(alloc, list_octets)?];
//!        let verdict = at_hand::verdict(alloc, &verifier, &query, &statements)?;
//!
//!    `at_hand::questions` tells beforehand what the verifier may be asked. `at_hand::find` is the search without a store, and
//!    `at_hand::finding_questions` its questions.
//!
//! 6. **Compare two parties** ([`compare`]). If both judge signatures alike and hold the same newest statements for the path, their
//!    verdicts are equal, however the statements came: [`node_laws`] says so of what the calls above answered, and [`call_laws`] of each
//!    call that it is among the events that reached the party.
//!
//! Calls that take memory say so in their errors, and no call stops the process. The modules have the parts.
#![tactic(auto)]

// ---- reading (RFC 5280, 4)

pub use cert::{CertFault, CertRule, Certificate};

// ---- signatures and paths (RFC 5280, 6.1)

pub use path::{Outcome, Query, QueryFault, Reason, State, Step, Verifier, outcome_laws, validate};
pub use path_verifiers::{ListVerifier, fingerprint, framing_laws};

// ---- statements of revocation (RFC 5280, 5; RFC 6960, 4.2)

pub use statements::{Statement, genuine, issuer_of};
pub use statements_crl::Crl;
pub use statements_facts::{Counts, Facts, Issuer, NameKey, Scope};
pub use statements_ocsp::Response;
pub use statements_parts::{ReadingFault, StatementFault, StatementRule};

// ---- stores

pub use sqlite::{Connection, FileStore, Files, Options};
pub use sqlite_disk::{Disk, Memory};
pub use sqlite_std_file::File;
pub use store::{OpenFault, Refused, Store};
pub use store_sql::StoreFault;

// ---- relying parties

pub use relying::{
    Comparison, DeliverAnswer, DeliverFault, Event, Fault, Finding, FindingBudget, Node,
    ReopenFault, RunFault, Verdict, call_laws, compare, finding_laws, node_laws, read_statement,
    run_laws,
};
pub use relying_agreement::{
    agreement_examples, agreement_laws, comparison_laws, taking_laws, verdict_laws,
};

/// Values of DER (X.690): octets, trees, and values from a source.
pub mod values {
    pub use asn::{
        BIT_STRING, BOOLEAN, Cursor, ENUMERATED, Fault, GENERALIZED_TIME, IA5_STRING, INTEGER,
        Number20, OBJECT_IDENTIFIER, OCTET_STRING, Oid, PRINTABLE_STRING, Rule, SEQUENCE, SET, Tlv,
        UTC_TIME, UTF8_STRING, check, member_laws, seconds_of_time, size_laws, time_laws, whole,
    };
    pub use der::{MAX_DEPTH, encoding_laws};
    pub use der_stream::{PathOctets, ReadFault, path_octets, read_one, stream_laws};
    pub use der_tree::{EncodeFault, Tree, encode, parse_tree};
}

/// Names (RFC 5280, 4.1.2.4, 4.2.1.6 and 4.2.1.10): distinguished names, general names, and the subtrees that constrain them.
pub mod naming {
    pub use names::{
        Attribute, Domain, Form, General, IpFault, IpRange, Name, NameRefusal, NameRule, Subtree,
        coverage_laws, domain_laws, general_laws, is_dns_name, is_ip_address, is_text, key_laws,
        name_laws, preparation_laws, prepared_text, range_laws, same_prepared, subtree_laws,
    };
}

/// Whom a certificate speaks for: hosts, addresses and mailboxes (RFC 9525; RFC 5280, 7.5).
pub mod identities {
    pub use names_identity::{Identity, IdentityFault, IdentityRule, matching_laws, speaks_for};
}

/// Paths to a certificate, found among certificates that come in any order (RFC 4158).
pub mod search {
    pub use path_search::{
        Answer, Authority, Budget, Candidate, Issuer, Obstacle, Paths, Search, SearchQuestion,
        Stuck, Tail, WhyNot, factor_laws, find, is_right_as_authority, is_right_as_target, issues,
        question_laws, questions, search_laws, why_not, why_not_laws,
    };
}

/// Constraints on mail addresses and on the hosts of URIs (RFC 5280, 4.2.1.10), for who asks for them.
///
/// In `Profile::Stated` a path is refused where such a constraint meets a name of its form. What `Query::read_with` and
/// `profiles::read_certificate` read in `Profile::Wide` carries its mail addresses, hosts and constraints on them as `hosts`, and every
/// call that validates or searches then processes them. `take_hosts` gives them to a certificate that was read.
pub mod hosts {
    pub use cert::CertificateHosts;
    pub use cert_hosts::{certificate_hosts_laws, read_hosts, take_hosts};
    pub use names_hosts::{
        HostBase, MailBase, MailName, host_laws, host_of_uri, is_host, mail_laws, uri_laws,
    };
    pub use path_host_constraints::{HostConstraints, host_constraints_laws};
}

/// Certificate policies (RFC 5280, 4.2.1.4, 4.2.1.5, 4.2.1.11, 4.2.1.14 and 6.1; RFC 9618), for who asks for them.
///
/// `validate` looks at none of them, and refuses a path whose certificates carry policyMappings, policyConstraints or inhibitAnyPolicy.
/// `validate_with_policies` processes them: it answers the policies at the end of the path, or the first certificate that is refused, for a
/// reason of the path or of its policies. A party is asked for its verdict on `QueryWithPolicies::path`, and `add_policies` adds the policies to
/// its answer; `verdict_with_policies` does both by statements at hand. `find_with_policies` searches for a path, by statements at hand, whose
/// policies are acceptable. `process_policies` looks at policies alone, and `PolicyState` does so certificate by certificate.
pub mod policies {
    pub use cert_policies::{PolicyExtensions, PolicyMapping, policy_layout_laws};
    pub use path_policies::{
        ANY_POLICY, PolicyCertificate, PolicyOutcome, PolicyQuery, PolicyReason, PolicySets,
        PolicyState, PolicyStep, policy_certificates, policy_outcome_laws, process_policies,
        tree_laws,
    };
    pub use path_with_policies::{
        OutcomeWithPolicies, PolicyInputs, QueryWithPolicies, join_outcomes,
        outcome_with_policies_laws, policies_apart, reason_of_policy, validate_with_policies,
    };
    pub use relying_policies::{
        FindingWithPolicies, PoliciesApart, SearchPolicies, VerdictWithPolicies, add_policies,
        find_with_policies, finding_with_policies_laws, join_verdict, search_policies_apart,
        verdict_with_policies, verdict_with_policies_laws,
    };
}

/// The parts of a certificate (RFC 5280, 4.1 and 4.2).
pub mod certificates {
    pub use cert::{
        AlgorithmIdentifier, BasicConstraints, BitString, CertRefusal, Extension, ExtensionKind,
        Extensions, KeyUsage, MOST_NAMES, NameConstraints, OidSet, SubjectPublicKeyInfo, Validity,
        Version, certificate_laws, layout_laws, offset_laws,
    };
    pub use path_conditions::{Constraints, FormSet};
}

/// The parts of lists and responses (RFC 5280, 5; RFC 6960, 4.2), and what they say.
pub mod revocation {
    pub use statements::{
        check_crl_issuer, identity_laws, is_named_by, may_sign_responses, response_singles,
        statement_laws,
    };
    pub use statements_crl::{CrlNumber, Entries, Entry, list_laws, number_laws};
    pub use statements_facts::{
        CrlFacts, Listed, OcspFacts, RevokedSerials, Single, Singles, Status, TakenAs, coming_laws,
        newest_laws,
    };
    pub use statements_ocsp::{
        CertId, CertStatus, Certs, ResponderId, SingleResponse, SingleResponses, is_response,
        response_laws,
    };
    pub use statements_parts::StatementRefusal;
}

/// Verdicts by statements at hand, without a store, and what a verifier may be asked for them.
pub mod at_hand {
    pub use relying_policies::find_among;
    pub use relying_questions::{
        SignatureQuestion, TextPart, WhichText, finding_question_laws, finding_questions,
        question_laws, questions, why_not_question_laws,
    };
    pub use relying_search::{EachPath, PathFilter, among_all_law, finding_among_laws};
    pub use relying_texts::{
        StatementsFault, delivery_laws, find, read_statements, verdict, verdict_on_candidate,
    };
}

/// The wide profile, for who asks for it: lists that are published by distribution point (RFC 5280, 4.2.1.13, 5.2.5 and 6.3.3), constraints on
/// mail addresses and hosts (4.2.1.10), critical certificatePolicies and cRLDistributionPoints (4.2.1.4, 4.2.1.13), and a keyUsage that goes
/// with the purpose (4.2.1.12).
///
/// All calls without options read and ask in `Profile::Stated`: a list with a point is refused, and the points of certificates are not read. A
/// caller that wants the wide profile asks for it in three steps.
///
/// 1. Read the question by `Query::read_with`, with `Options { profile: Profile::Wide }`: each certificate of the path then has the names of its
///    points (and its `hosts`). For a search, read each certificate of the bag, and the target, by `read_certificate`, and give the same
///    options to the [`Search`](crate::search::Search).
/// 2. Read the statements by `read_statements_under`. A party that keeps a store makes it by `Store::make_under` or `Store::create_under`
///    instead: then [`Node::deliver`](crate::Node::deliver) reads in the profile of the store.
/// 3. Ask for the verdict as ever. It looks for the lists at the points of each certificate, beside those of all certificates of its issuer.
///
/// For example, by statements at hand:
///
///     let options = Options { profile: Profile::Wide };
///     let query = Query::read_with(alloc, anchor_octets, &path_octets, moment, purpose, options)?;
///     let statements = read_statements_under(alloc, Profile::Wide, &list_octets)?;
///     let verdict = at_hand::verdict(alloc, &verifier, &query, &statements)?;
///
/// `validate_with` is `validate` with options, and `genuine_under` answers the facts of one statement.
pub mod profiles {
    pub use path::{
        Options, certificate_profile_laws, query_profile_laws, read_certificate, validate_with,
    };
    pub use relying::read_statement_under;
    pub use relying_texts::read_statements_under;
    pub use statements::{genuine_under, statement_profile_laws};
    pub use statements_crl::profile_laws;
    pub use statements_facts::Profile;
}

/// The points at which lists about a certificate are published (RFC 5280, 4.2.1.13). `take_points` gives them to a certificate that was read.
pub mod points {
    pub use cert::CertificatePoints;
    pub use cert_points::{
        DistributionPoint, DistributionPoints, GeneralNames, PointName, point_layout_laws,
        point_reading_laws, take_points,
    };
}

/// What a store holds, and how a connection is taken for a store and looked up.
pub mod stores {
    pub use statements_facts::{CrlAnswer, OcspAnswer};
    pub use store::{adopt, crash_laws, look_up_crl, look_up_ocsp, take_over};
}
