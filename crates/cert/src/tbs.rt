//! The signed part of a certificate (RFC 5280, 4.1.2).

ghost use Rattle.std.specs.Prelude.{◌≡◌};
ghost use Rattle.asn.specs.Reading.{seen_tlv, left, Gives, StepGives};
ghost use Rattle.names.specs.GeneralView.{name_contents};
ghost use Rattle.cert.specs.AlgorithmIdentifier.{seen_algorithm};
ghost use Rattle.cert.specs.SubjectPublicKeyInfo.{key_info, seen_key_info};
ghost use Rattle.cert.specs.TbsCertificate.{next_read, next_algorithm, next_name, component, is_serial, serial_number, distinguished_name, issuer, unique_id, tbs_head, seen_tbs_head, tbs_subject, seen_subject};
ghost use Rattle.cert.specs.Validity.{validity, seen_validity};

use crate::algorithm::AlgorithmIdentifier;
use crate::fault::{CertRefusal, CertRule, name_refusal};
use crate::key_info::SubjectPublicKeyInfo;
use crate::validity::Validity;
use crate::version::Version;
use asn::{Cursor, INTEGER, SEQUENCE, Tlv};
use names::Name;

/// The components up to the validity.
#[derive(Clone, Copy)]
pub(crate) struct TbsHead<'a> {
    pub(crate) version: Version,
    pub(crate) serial: Tlv<'a>,
    pub(crate) signature: AlgorithmIdentifier<'a>,
    pub(crate) issuer: Name<'a>,
    pub(crate) validity: Validity,
}

/// The components from the subject to the extensions.
#[derive(Clone, Copy)]
pub(crate) struct Subject<'a> {
    pub(crate) name: Name<'a>,
    pub(crate) key_info: SubjectPublicKeyInfo<'a>,
}

/// Whether the contents of an INTEGER are a serial number of 1 to 32 octets, of any sign (RFC 5280, 4.1.2.2).
pub fn is_serial_number(contents: &[u8]) -> bool
    ensures { result ≡ is_serial contents.now }
{
    !contents.is_empty() && contents.len() <= 32
}

/// CertificateSerialNumber ::= INTEGER, here of 1 to 32 octets and of any sign
#[tactic(auto, unfolding(crate::specs::TbsCertificate::serial_number, asn::specs::Walk::check_that))]
fn serial_at(value: Tlv<'_>) -> Result<Tlv<'_>, CertRefusal>
    ensures { Gives seen_tlv result (serial_number (seen_tlv value.entry)) }
{
    if is_serial_number(value.body) {
        Ok(value)
    } else {
        Err((CertRule::Serial, value.at))
    }
}

/// The name that stands there, with its fault as one of a certificate.
#[tactic(auto, unfolding(crate::specs::TbsCertificate::distinguished_name))]
fn name_at(value: Tlv<'_>) -> Result<Name<'_>, CertRefusal>
    ensures { Gives name_contents result (distinguished_name (seen_tlv value.entry)) }
{
    Name::at(value).map_err(name_refusal)
}

/// The issuer, whose name is not empty.
#[tactic(auto, unfolding(crate::specs::TbsCertificate::issuer, asn::specs::Walk::check_that))]
fn issuer_at(value: Tlv<'_>) -> Result<Name<'_>, CertRefusal>
    ensures { Gives name_contents result (issuer (seen_tlv value.entry)) }
{
    let issuer = name_at(value)?;
    if issuer.is_empty() {
        return Err((CertRule::EmptyIssuer, value.at));
    }
    Ok(issuer)
}

#[tactic(auto, unfolding(crate::specs::TbsCertificate::component))]
fn take_serial<'a>(members: &mut Cursor<'a>) -> Result<Tlv<'a>, CertRefusal>
    ensures { StepGives seen_tlv result members.old members.new (component 0x02 serial_number) }
{
    serial_at(members.required(INTEGER, CertRule::Layout)?)
}

#[tactic(auto, unfolding(crate::specs::TbsCertificate::next_read))]
fn take_algorithm<'a>(members: &mut Cursor<'a>) -> Result<AlgorithmIdentifier<'a>, CertRefusal>
    ensures { StepGives seen_algorithm result members.old members.new next_algorithm }
{
    AlgorithmIdentifier::read(members.next_or(CertRule::Layout)?, CertRule::Layout)
}

#[tactic(auto, unfolding(crate::specs::TbsCertificate::component))]
fn take_name<'a>(members: &mut Cursor<'a>) -> Result<Name<'a>, CertRefusal>
    ensures { StepGives name_contents result members.old members.new next_name }
{
    name_at(members.required(SEQUENCE, CertRule::Layout)?)
}

#[tactic(auto, unfolding(crate::specs::TbsCertificate::component))]
fn take_issuer<'a>(members: &mut Cursor<'a>) -> Result<Name<'a>, CertRefusal>
    ensures { StepGives name_contents result members.old members.new (component 0x30 issuer) }
{
    issuer_at(members.required(SEQUENCE, CertRule::Layout)?)
}

#[tactic(auto, unfolding(crate::specs::TbsCertificate::next_read))]
fn take_validity(members: &mut Cursor<'_>) -> Result<Validity, CertRefusal>
    ensures { StepGives seen_validity result members.old members.new (next_read validity) }
{
    Validity::read(members.next_or(CertRule::Layout)?)
}

#[tactic(auto, unfolding(crate::specs::TbsCertificate::next_read))]
fn take_key_info<'a>(members: &mut Cursor<'a>) -> Result<SubjectPublicKeyInfo<'a>, CertRefusal>
    ensures { StepGives seen_key_info result members.old members.new (next_read key_info) }
{
    SubjectPublicKeyInfo::read(members.next_or(CertRule::Layout)?)
}

/// Passes over UniqueIdentifier ::= BIT STRING under the tag, which is there from v2 on; the fault, at it, in v1.
#[tactic(auto, unfolding(crate::specs::TbsCertificate::unique_id, asn::specs::Walk::check_that))]
fn skip_unique_id(tag: u8, version: Version, members: &mut Cursor<'_>) -> Result<(), CertRefusal>
    ensures { Gives (λ _. left members.new) result (unique_id tag version (left members.old)) }
{
    match members.optional(tag) {
        Some(id) if version.is_v1() => Err((CertRule::Version, id.at)),
        _ => Ok(()),
    }
}

impl<'a> TbsHead<'a> {
    /// version [0], serialNumber, signature, issuer, validity
    #[tactic(auto, unfolding(crate::specs::TbsCertificate::tbs_head))]
    pub(crate) fn take(members: &mut Cursor<'a>) -> Result<TbsHead<'a>, CertRefusal>
        ensures { StepGives seen_tbs_head result members.old members.new tbs_head }
    {
        let version = Version::take(members)?;
        let serial = take_serial(members)?;
        let signature = take_algorithm(members)?;
        let issuer = take_issuer(members)?;
        let validity = take_validity(members)?;
        Ok(TbsHead {
            version,
            serial,
            signature,
            issuer,
            validity,
        })
    }
}

impl<'a> Subject<'a> {
    /// subject, subjectPublicKeyInfo, issuerUniqueID [1], subjectUniqueID [2]
    #[tactic(auto, unfolding(crate::specs::TbsCertificate::tbs_subject))]
    pub(crate) fn take(
        version: Version,
        members: &mut Cursor<'a>,
    ) -> Result<Subject<'a>, CertRefusal>
        ensures { StepGives seen_subject result members.old members.new (tbs_subject version) }
    {
        let name = take_name(members)?;
        let key_info = take_key_info(members)?;
        skip_unique_id(0x81, version, members)?;
        skip_unique_id(0x82, version, members)?;
        Ok(Subject { name, key_info })
    }
}
