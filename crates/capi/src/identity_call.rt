//! `x509check_speaks_for`.

ghost use Rattle.std.specs.Prelude.{◌≡◌, ◌<◌, IfErr, IfOk, ℕ, List};
ghost use Rattle.cert.specs.Certificate.{certificate};
ghost use Rattle.cert.specs.Fault.{FailsUnlessFull};
ghost use Rattle.names_identity.specs.Identity.{reference_identity};
ghost use Rattle.capi.specs.Speaking.{IsIdentity, TellsBadIdentity, TellsNoCertificate, TellsSpeaking, identity_rule_number};

use capi_values::der_fault;
use cert::{CertFault, Certificate};
use names_identity::{Identity, IdentityFault, IdentityRule, speaks_for};
use std::alloc::Global;

const HOST: u32 = 1;

const ADDRESS: u32 = 2;

const MAILBOX: u32 = 3;

const YES: u32 = 1;

const NO: u32 = 2;

const BAD_IDENTITY: u32 = 3;

const BAD_CERTIFICATE: u32 = 4;

/// The fault of an identity whose kind is none.
const NO_KIND: u32 = 8;

/// Whether a certificate speaks for an identity, or why one of the two is refused. What has no number there is 0.
#[derive(Clone, Copy, Debug, PartialEq, Eq, Default)]
#[repr(C)]
pub struct SpeakingAnswer {
    /// 1 yes, 2 no, 3 the identity is refused, 4 the certificate. No call answers 0, so a struct of zeros is no answer.
    pub speaks: u32,
    /// Of a certificate the number of the fault; of an identity that of its own rule.
    pub fault: u32,
    /// The number of the rule of DER that is broken, if the certificate is refused with 21; else 0.
    pub der_fault: u32,
    /// Of the value at fault in the certificate, or of the octet in the identity.
    pub offset: usize,
}

/// The number of the rule.
fn number_of(rule: IdentityRule) -> u32
    ensures { result ≡ identity_rule_number rule }
{
    match rule {
        IdentityRule::HostOctet => 1,
        IdentityRule::Label => 2,
        IdentityRule::Length => 3,
        IdentityRule::Number => 4,
        IdentityRule::Address => 5,
        IdentityRule::LocalPart => 6,
        IdentityRule::NoHost => 7,
    }
}

/// The identity is refused.
fn bad_identity(fault: IdentityFault) -> SpeakingAnswer
    ensures speaks { result.speaks ≡ 3 }
    ensures fault { result.fault ≡ identity_rule_number fault.rule }
    ensures offset { result.offset ≡ fault.at }
{
    SpeakingAnswer {
        speaks: BAD_IDENTITY,
        fault: number_of(fault.rule),
        der_fault: 0,
        offset: fault.at,
    }
}

/// The identity that a text of this kind is.
fn identity_of(kind: u32, text: &[u8]) -> Result<Identity<'_>, SpeakingAnswer>
    ensures reads { IfOk result (λ identity.
        IsIdentity kind text.now (reference_identity identity)) }
    ensures refuses { IfErr result (λ answer.
        (answer.speaks ≡ 3) × TellsBadIdentity kind text.now answer) }
{
    match kind {
        HOST => Identity::host(text).map_err(bad_identity),
        ADDRESS => Identity::address(text).map_err(bad_identity),
        MAILBOX => Identity::mailbox(text).map_err(bad_identity),
        _ => Err(SpeakingAnswer {
            speaks: BAD_IDENTITY,
            fault: NO_KIND,
            ..SpeakingAnswer::default()
        }),
    }
}

/// The certificate is refused.
fn bad_certificate(fault: CertFault) -> SpeakingAnswer
    ensures speaks { result.speaks ≡ 4 }
    ensures tells { (text : List ℕ) → FailsUnlessFull fault (certificate text)
        → TellsNoCertificate text result }
{
    match fault {
        CertFault::Refused(rule, offset) => SpeakingAnswer {
            speaks: BAD_CERTIFICATE,
            fault: u32::from(rule.number()),
            der_fault: der_fault(rule),
            offset,
        },
        CertFault::Memory => SpeakingAnswer {
            speaks: BAD_CERTIFICATE,
            fault: u32::from(fault.number()),
            ..SpeakingAnswer::default()
        },
    }
}

/// Both are read, and this is the answer.
fn answered(speaks: u32) -> SpeakingAnswer
    ensures { result.speaks ≡ speaks }
{
    SpeakingAnswer {
        speaks,
        ..SpeakingAnswer::default()
    }
}

/// Whether the names of the certificate speak for the identity.
fn answer_for(alloc: Global, certificate: &[u8], identity: &Identity<'_>) -> SpeakingAnswer
    ensures tells { (kind : ℕ) (text : List ℕ)
        → IsIdentity kind text (reference_identity identity.now)
        → TellsSpeaking certificate.now kind text result }
    ensures filled { 0 < result.speaks }
{
    let certificate = match Certificate::read(alloc, certificate) {
        Ok(certificate) => certificate,
        Err(fault) => return bad_certificate(fault),
    };
    if speaks_for(&certificate.extensions.alternative_names, identity) {
        answered(YES)
    } else {
        answered(NO)
    }
}

/// Whether the certificate speaks for an identity, as `names_identity::speaks_for` says: a host (kind 1), an IP address of 4 or 16 octets (2)
/// or a mailbox (3). The identity is read first, and then the certificate.
#[unsafe(no_mangle)]
pub extern "C" fn x509check_speaks_for(
    alloc: Global,
    certificate: &[u8],
    kind: u32,
    identity: &[u8],
) -> SpeakingAnswer
    ensures tells { TellsSpeaking certificate.now kind identity.now result }
    ensures filled { 0 < result.speaks }
{
    match identity_of(kind, identity) {
        Ok(identity) => answer_for(alloc, certificate, &identity),
        Err(answer) => answer,
    }
}
