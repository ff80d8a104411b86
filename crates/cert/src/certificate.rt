//! Certificates (RFC 5280, 4.1).

ghost use Rattle.std.specs.Prelude.{◌≡◌, IsTrue, ◌↔◌};
ghost use Rattle.asn.specs.Reading.{seen_tlv, Gives, StepGives};
ghost use Rattle.asn.specs.Outermost.{outermost as asn_outermost};
ghost use Rattle.cert.specs.BitString.{seen_bit_string};
ghost use Rattle.cert.specs.Certificate.{TakesOptionalExtensions, tbs_certificate, seen_tbs, repeats_algorithm, next_signature, signature_value, certificate_at, certificate, seen_certificate, IsSelfIssued, is_self_issued};
ghost use Rattle.cert.specs.Fault.{GivesUnlessFull, as_der};

use crate::algorithm::AlgorithmIdentifier;
use crate::bit_string::{BitString, is_of_whole_octets};
use crate::extensions::Extensions;
use crate::fault::{CertFault, CertRefusal, CertRule};
use crate::hosts::CertificateHosts;
use crate::key_info::SubjectPublicKeyInfo;
use crate::points::CertificatePoints;
use crate::tbs::{Subject, TbsHead};
use crate::validity::Validity;
use crate::version::Version;
use asn::{BIT_STRING, Cursor, SEQUENCE, Tlv};
use names::Name;
use std::alloc::Global;

/// A certificate that was read. Its parts borrow the octets; the lists in `extensions` take memory.
#[derive(Drop)]
pub struct Certificate<'a> {
    /// The whole certificate.
    pub octets: &'a [u8],
    /// tbsCertificate: the signed part.
    pub tbs: Tlv<'a>,
    pub version: Version,
    /// serialNumber: an INTEGER whose contents are 1 to 32 octets, of any sign.
    pub serial: Tlv<'a>,
    /// The algorithm of the signature, from the signed part. The same octets stand behind that part.
    pub algorithm: AlgorithmIdentifier<'a>,
    /// A name that is not empty.
    pub issuer: Name<'a>,
    pub validity: Validity,
    pub subject: Name<'a>,
    pub subject_public_key_info: SubjectPublicKeyInfo<'a>,
    /// What the extensions say; without extensions, what none say.
    pub extensions: Extensions<'a>,
    /// signatureValue, in which no bit is unused.
    pub signature: BitString<'a>,
    /// The names of the points at which lists about it are published (4.2.1.13). Reading leaves them out: they count in the wide profile
    /// alone.
    pub points: CertificatePoints<'a>,
    /// What it says of mail addresses and of the hosts of URIs, if constraints on these are processed (4.2.1.10). Reading leaves it empty:
    /// it counts in the wide profile alone.
    pub hosts: CertificateHosts<'a>,
}

/// extensions [3] EXPLICIT Extensions OPTIONAL, in v3 alone
#[tactic(auto, unfolding(crate::specs::Certificate::optional_extensions, asn::specs::Walk::check_that))]
fn take_extensions<'a>(
    alloc: Global,
    version: Version,
    members: &mut Cursor<'a>,
) -> Result<Extensions<'a>, CertFault>
    ensures { TakesOptionalExtensions version members.old members.new result }
{
    let Some(explicit) = members.optional(0xA3) else {
        return Ok(Extensions::none(alloc));
    };
    if !version.is_v3() {
        return Err(CertFault::Refused(CertRule::Version, explicit.at));
    }
    let mut inside = explicit.members();
    let list = inside.next_or(CertRule::Layout)?;
    let extensions = Extensions::read(alloc, list)?;
    inside.ended(CertRule::Layout)?;
    Ok(extensions)
}

/// The signed part, read.
#[derive(Drop)]
pub(crate) struct TbsCertificate<'a> {
    head: TbsHead<'a>,
    subject: Subject<'a>,
    extensions: Extensions<'a>,
}

impl<'a> TbsCertificate<'a> {
    /// TBSCertificate ::= SEQUENCE { version [0], serialNumber, signature, issuer, validity, subject, subjectPublicKeyInfo,
    /// issuerUniqueID [1], subjectUniqueID [2], extensions [3] }
    #[tactic(auto, unfolding(crate::specs::Certificate::tbs_certificate))]
    fn read(alloc: Global, value: Tlv<'a>) -> Result<TbsCertificate<'a>, CertFault>
        ensures { GivesUnlessFull seen_tbs result (tbs_certificate (seen_tlv value.entry)) }
    {
        value.is_a(SEQUENCE, CertRule::Layout)?;
        let mut members = value.members();
        let head = TbsHead::take(&mut members)?;
        let subject = Subject::take(head.version, &mut members)?;
        let extensions = take_extensions(alloc, head.version, &mut members)?;
        members.ended(CertRule::Layout)?;
        Ok(TbsCertificate {
            head,
            subject,
            extensions,
        })
    }
}

/// Takes signatureAlgorithm, which has the octets of the algorithm identifier in the signed part.
#[tactic(auto, unfolding(crate::specs::TbsCertificate::component, crate::specs::Certificate::same_algorithm, asn::specs::Walk::check_that))]
fn take_same_algorithm(
    inner: AlgorithmIdentifier<'_>,
    members: &mut Cursor<'_>,
) -> Result<(), CertRefusal>
    ensures { StepGives (λ _. tt) result members.old members.new (repeats_algorithm inner.entry) }
{
    let value = members.required(SEQUENCE, CertRule::Layout)?;
    if value.whole == inner.value.whole {
        Ok(())
    } else {
        Err((CertRule::AlgorithmsDiffer, value.at))
    }
}

/// signatureValue BIT STRING, whose bits must be whole octets
#[tactic(auto, unfolding(crate::specs::Certificate::signature_value, asn::specs::Walk::check_that))]
fn signature_at(value: Tlv<'_>) -> Result<BitString<'_>, CertRefusal>
    ensures { Gives seen_bit_string result (signature_value (seen_tlv value.entry)) }
{
    if is_of_whole_octets(value.body) {
        Ok(BitString { value })
    } else {
        Err((CertRule::SignatureBits, value.at))
    }
}

#[tactic(auto, unfolding(crate::specs::TbsCertificate::component))]
fn take_signature<'a>(members: &mut Cursor<'a>) -> Result<BitString<'a>, CertRefusal>
    ensures { StepGives seen_bit_string result members.old members.new next_signature }
{
    signature_at(members.required(BIT_STRING, CertRule::Layout)?)
}

/// The one value that the octets are the encoding of, with its fault as one of a certificate.
fn outermost(octets: &[u8]) -> Result<Tlv<'_>, CertRefusal>
    ensures { Gives seen_tlv result (as_der (asn_outermost octets.now)) }
{
    match Tlv::outermost(octets) {
        Ok(value) => Ok(value),
        Err((rule, at)) => Err((CertRule::Der(rule), at)),
    }
}

impl<'a> Certificate<'a> {
    /// Reads a certificate from DER (RFC 5280, 4.1), or answers the first fault.
    ///
    /// Time is n log n in the octets, except for names with many attributes in one RDN. Memory is taken for the lists in `extensions`,
    /// and, while reading, for the types of the extensions past the sixteenth; `CertFault::Memory` is answered only if that was refused.
    #[inline(always)]
    #[tactic(auto, unfolding(crate::specs::Certificate::certificate))]
    pub fn read(alloc: Global, octets: &'a [u8]) -> Result<Certificate<'a>, CertFault>
        ensures { GivesUnlessFull seen_certificate result (certificate octets.now) }
    {
        let value = outermost(octets)?;
        Certificate::at(alloc, value)
    }

    /// Certificate ::= SEQUENCE { tbsCertificate TBSCertificate, signatureAlgorithm AlgorithmIdentifier, signatureValue BIT STRING }
    ///
    /// As `read`, of a value in the text handed to `asn::whole`, with offsets in that text.
    #[inline(always)]
    #[tactic(auto, unfolding(crate::specs::Certificate::certificate_at))]
    pub fn at(alloc: Global, value: Tlv<'a>) -> Result<Certificate<'a>, CertFault>
        ensures { GivesUnlessFull seen_certificate result (certificate_at (seen_tlv value.entry)) }
    {
        value.is_a(SEQUENCE, CertRule::Layout)?;
        let mut members = value.members();
        let signed = members.next_or(CertRule::Layout)?;
        let tbs = TbsCertificate::read(alloc, signed)?;
        take_same_algorithm(tbs.head.signature, &mut members)?;
        let signature = take_signature(&mut members)?;
        members.ended(CertRule::Layout)?;
        Ok(Certificate {
            octets: value.whole,
            tbs: signed,
            version: tbs.head.version,
            serial: tbs.head.serial,
            algorithm: tbs.head.signature,
            issuer: tbs.head.issuer,
            validity: tbs.head.validity,
            subject: tbs.subject.name,
            subject_public_key_info: tbs.subject.key_info,
            extensions: tbs.extensions,
            signature,
            points: CertificatePoints::none(alloc),
            hosts: CertificateHosts::none(alloc),
        })
    }

    /// Whether subject and issuer match (RFC 5280, 6.1).
    #[tactic(auto, unfolding(crate::specs::Certificate::is_self_issued))]
    pub fn self_issued(&self) -> bool
        ensures decides { IsTrue result ↔ IsSelfIssued (seen_certificate self.now) }
        ensures test { result ≡ is_self_issued (seen_certificate self.now) }
    {
        self.subject.matches(&self.issuer)
    }
}
