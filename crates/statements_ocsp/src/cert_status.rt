//! What a single response says of its certificate (RFC 6960, 4.2.1).

ghost use Rattle.std.specs.Prelude.{◌≡◌};
ghost use Rattle.asn.specs.Reading.{seen_tlv, Gives};
ghost use Rattle.statements_parts.specs.Parts.{statement_component};
ghost use Rattle.asn.specs.Walk.{StepGives};
ghost use Rattle.statements_ocsp.specs.CertificateStatus.{cert_status, null, reason, reason_of_contents, revocation_reason, revoked_info, status_at};

use crate::generalized_time::take_time;
use asn::{Cursor, ENUMERATED, Tlv};
use statements_parts::{StatementRefusal, StatementRule, is_reason};

/// CertStatus ::= CHOICE { good [0] IMPLICIT NULL, revoked [1] IMPLICIT RevokedInfo, unknown [2] IMPLICIT UnknownInfo }
#[derive(Clone, Copy, Debug, PartialEq, Eq)]
pub enum CertStatus {
    Good,
    /// The number of the reason: 0 to 6, 9 or 10; 0 (unspecified) if none is given.
    Revoked(u8),
    Unknown,
}

/// The identifier octet of good [0].
const GOOD: u8 = 0x80;

/// That of revoked [1].
const REVOKED: u8 = 0xA1;

/// That of unknown [2].
const UNKNOWN: u8 = 0x82;

/// removeFromCRL, which takes a certificate off a delta list, and is no reason of a response.
const REMOVE_FROM_CRL: u8 = 8;

/// The number of the CRLReason that the contents of an ENUMERATED are.
fn reason_of(contents: &[u8]) -> Option<u8>
    ensures { result ≡ reason_of_contents contents.now }
{
    match contents {
        [code] if is_reason(*code) && *code != REMOVE_FROM_CRL => Some(*code),
        _ => None,
    }
}

/// CRLReason ::= ENUMERATED
#[tactic(auto, unfolding(crate::specs::CertificateStatus::reason))]
fn reason_at(value: Tlv<'_>) -> Result<u8, StatementRefusal>
    ensures { Gives (λ code. code) result (reason (seen_tlv value.entry)) }
{
    match reason_of(value.body) {
        Some(code) => Ok(code),
        None => Err((StatementRule::BadReason, value.at)),
    }
}

#[tactic(auto, unfolding(statements_parts::specs::Parts::statement_component))]
fn take_code(members: &mut Cursor<'_>) -> Result<u8, StatementRefusal>
    ensures { StepGives (λ code. code) result members.old members.new
        (statement_component 0x0A reason) }
{
    reason_at(members.required(ENUMERATED, StatementRule::Layout)?)
}

/// Takes revocationReason [0] EXPLICIT CRLReason OPTIONAL.
#[tactic(auto, unfolding(crate::specs::CertificateStatus::revocation_reason))]
fn take_reason(members: &mut Cursor<'_>) -> Result<u8, StatementRefusal>
    ensures { StepGives (λ code. code) result members.old members.new revocation_reason }
{
    let Some(explicit) = members.optional(0xA0) else {
        return Ok(0);
    };
    let mut inside = explicit.members();
    let code = take_code(&mut inside)?;
    inside.ended(StatementRule::Layout)?;
    Ok(code)
}

/// RevokedInfo ::= SEQUENCE { revocationTime GeneralizedTime, revocationReason [0] EXPLICIT CRLReason OPTIONAL }
#[tactic(auto, unfolding(crate::specs::CertificateStatus::revoked_info))]
fn revoked_at(value: Tlv<'_>) -> Result<CertStatus, StatementRefusal>
    ensures { Gives (λ status. status) result (revoked_info (seen_tlv value.entry)) }
{
    value.is_a(REVOKED, StatementRule::Layout)?;
    let mut members = value.members();
    take_time(&mut members)?;
    let reason = take_reason(&mut members)?;
    members.ended(StatementRule::Layout)?;
    Ok(CertStatus::Revoked(reason))
}

/// The status that a NULL says.
#[tactic(auto, unfolding(crate::specs::CertificateStatus::null, asn::specs::Walk::check_that))]
fn null_at(status: CertStatus, value: Tlv<'_>) -> Result<CertStatus, StatementRefusal>
    ensures { Gives (λ status. status) result (null status (seen_tlv value.entry)) }
{
    match value.body {
        [] => Ok(status),
        _ => Err((StatementRule::Layout, value.at)),
    }
}

#[tactic(auto, unfolding(crate::specs::CertificateStatus::status_at))]
fn status_at(value: Tlv<'_>) -> Result<CertStatus, StatementRefusal>
    ensures { Gives (λ status. status) result (status_at (seen_tlv value.entry)) }
{
    match value.tag {
        GOOD => null_at(CertStatus::Good, value),
        REVOKED => revoked_at(value),
        UNKNOWN => null_at(CertStatus::Unknown, value),
        _ => Err((StatementRule::Layout, value.at)),
    }
}

impl CertStatus {
    /// Takes a CertStatus.
    #[tactic(auto, unfolding(crate::specs::CertificateStatus::cert_status))]
    pub(crate) fn take(members: &mut Cursor<'_>) -> Result<CertStatus, StatementRefusal>
        ensures { StepGives (λ status. status) result members.old members.new cert_status }
    {
        status_at(members.next_or(StatementRule::Layout)?)
    }
}
