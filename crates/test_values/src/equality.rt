//! `==` of public values: it answers whether the two are the same, so no field is left out.
ghost use Rattle.std.specs.Prelude.{◌≡◌, ◌↔◌, IsTrue};
ghost use Rattle.statements_crl.specs.Entry.{seen_entry};
ghost use Rattle.statements_ocsp.specs.CertificateId.{seen_id};

use cert::{BasicConstraints, CertFault, CertRule, ExtensionKind, Validity, Version};
use der::{Fault, Header, Rule};
use der_stream::ReadFault;
use der_tree::EncodeFault;
use names::{Form, IpFault, NameRule};
use path::{Outcome, Reason, Step};
use relying::DeliverFault;
use relying_agreement::Verdict;
use relying_questions::WhichText;
use relying_texts::StatementsFault;
use relying_verdicts::{Fault as PartyFault, QueryFault};
use statements_crl::Entry;
use statements_facts::{Counts, Scope, Status, TakenAs};
use statements_ocsp::{CertId, CertStatus};
use statements_parts::{StatementFault, StatementRule};
use store_sql::{Origin, StoreFault};

pub fn same_basic_constraints(one: BasicConstraints, other: BasicConstraints) -> bool
    ensures { IsTrue result ↔ (one ≡ other) }
{
    one == other
}

pub fn same_cert_fault(one: CertFault, other: CertFault) -> bool
    ensures { IsTrue result ↔ (one ≡ other) }
{
    one == other
}

pub fn same_cert_rule(one: CertRule, other: CertRule) -> bool
    ensures { IsTrue result ↔ (one ≡ other) }
{
    one == other
}

pub fn same_extension_kind(one: ExtensionKind, other: ExtensionKind) -> bool
    ensures { IsTrue result ↔ (one ≡ other) }
{
    one == other
}

pub fn same_validity(one: Validity, other: Validity) -> bool
    ensures { IsTrue result ↔ (one ≡ other) }
{
    one == other
}

pub fn same_version(one: Version, other: Version) -> bool
    ensures { IsTrue result ↔ (one ≡ other) }
{
    one == other
}

pub fn same_fault(one: Fault, other: Fault) -> bool
    ensures { IsTrue result ↔ (one ≡ other) }
{
    one == other
}

pub fn same_header(one: Header, other: Header) -> bool
    ensures { IsTrue result ↔ (one ≡ other) }
{
    one == other
}

pub fn same_rule(one: Rule, other: Rule) -> bool
    ensures { IsTrue result ↔ (one ≡ other) }
{
    one == other
}

pub fn same_read_fault(one: ReadFault, other: ReadFault) -> bool
    ensures { IsTrue result ↔ (one ≡ other) }
{
    one == other
}

pub fn same_encode_fault(one: EncodeFault, other: EncodeFault) -> bool
    ensures { IsTrue result ↔ (one ≡ other) }
{
    one == other
}

pub fn same_form(one: Form, other: Form) -> bool
    ensures { IsTrue result ↔ (one ≡ other) }
{
    one == other
}

pub fn same_ip_fault(one: IpFault, other: IpFault) -> bool
    ensures { IsTrue result ↔ (one ≡ other) }
{
    one == other
}

pub fn same_name_rule(one: NameRule, other: NameRule) -> bool
    ensures { IsTrue result ↔ (one ≡ other) }
{
    one == other
}

pub fn same_outcome(one: Outcome, other: Outcome) -> bool
    ensures { IsTrue result ↔ (one ≡ other) }
{
    one == other
}

pub fn same_reason(one: Reason, other: Reason) -> bool
    ensures { IsTrue result ↔ (one ≡ other) }
{
    one == other
}

pub fn same_step(one: Step, other: Step) -> bool
    ensures { IsTrue result ↔ (one ≡ other) }
{
    one == other
}

pub fn same_deliver_fault(one: DeliverFault, other: DeliverFault) -> bool
    ensures { IsTrue result ↔ (one ≡ other) }
{
    one == other
}

pub fn same_verdict(one: Verdict, other: Verdict) -> bool
    ensures { IsTrue result ↔ (one ≡ other) }
{
    one == other
}

pub fn same_source(one: WhichText, other: WhichText) -> bool
    ensures { IsTrue result ↔ (one ≡ other) }
{
    one == other
}

pub fn same_statements_fault(one: StatementsFault, other: StatementsFault) -> bool
    ensures { IsTrue result ↔ (one ≡ other) }
{
    one == other
}

pub fn same_party_fault(one: PartyFault, other: PartyFault) -> bool
    ensures { IsTrue result ↔ (one ≡ other) }
{
    one == other
}

pub fn same_query_fault(one: QueryFault, other: QueryFault) -> bool
    ensures { IsTrue result ↔ (one ≡ other) }
{
    one == other
}

pub fn same_counts(one: Counts, other: Counts) -> bool
    ensures { IsTrue result ↔ (one ≡ other) }
{
    one == other
}

pub fn same_scope(one: Scope, other: Scope) -> bool
    ensures { IsTrue result ↔ (one ≡ other) }
{
    one == other
}

pub fn same_status(one: Status, other: Status) -> bool
    ensures { IsTrue result ↔ (one ≡ other) }
{
    one == other
}

pub fn same_taken_as(one: TakenAs, other: TakenAs) -> bool
    ensures { IsTrue result ↔ (one ≡ other) }
{
    one == other
}

pub fn same_cert_status(one: CertStatus, other: CertStatus) -> bool
    ensures { IsTrue result ↔ (one ≡ other) }
{
    one == other
}

/// Of the octets that the parts of a text hold, and not of where they stand.
pub fn same_entry(one: Entry<'_>, other: Entry<'_>) -> bool
    ensures { IsTrue result ↔ (seen_entry one.entry ≡ seen_entry other.entry) }
{
    one == other
}

pub fn same_cert_id(one: CertId<'_>, other: CertId<'_>) -> bool
    ensures { IsTrue result ↔ (seen_id one.entry ≡ seen_id other.entry) }
{
    one == other
}

pub fn same_statement_fault(one: StatementFault, other: StatementFault) -> bool
    ensures { IsTrue result ↔ (one ≡ other) }
{
    one == other
}

pub fn same_statement_rule(one: StatementRule, other: StatementRule) -> bool
    ensures { IsTrue result ↔ (one ≡ other) }
{
    one == other
}

pub fn same_origin(one: Origin, other: Origin) -> bool
    ensures { IsTrue result ↔ (one ≡ other) }
{
    one == other
}

pub fn same_store_fault(one: StoreFault, other: StoreFault) -> bool
    ensures { IsTrue result ↔ (one ≡ other) }
{
    one == other
}
