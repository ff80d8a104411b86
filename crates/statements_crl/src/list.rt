//! Certificate revocation lists (RFC 5280, 5.1).

ghost use Rattle.std.specs.Prelude.{◌≡◌, ◌==◌, Some};
ghost use Rattle.asn.specs.Reading.{seen_tlv, left, Gives};
ghost use Rattle.statements_crl.specs.CertificateList.{certificate_list, certificate_list_at, certificate_list_at_under, certificate_list_under, list_head, seen_list_head, seen_list, seen_tbs_list, tbs_cert_list, version_2};
ghost use Rattle.statements_crl.specs.Entry.{entries_left, reason_listed};
ghost use Rattle.statements_parts.specs.Fault.{StatementGivesUnlessFull};
ghost use Rattle.asn.specs.Walk.{StepGives};

use crate::entry_list::take_entries;
use crate::entry_walk::Entries;
use crate::list_extension::NumberAndScope;
use crate::number::CrlNumber;
use crate::parts::{take_issuer, take_same_algorithm};
use asn::{Cursor, INTEGER, SEQUENCE, Tlv};
use cert::{AlgorithmIdentifier, BitString};
use cert_points::GeneralNames;
use names::Name;
use statements_facts::{Profile, Scope};
use statements_parts::{
    ReadingFault, StatementRefusal, StatementRule, outermost, take_algorithm, take_signature,
};
use std::alloc::Global;

/// A revocation list that was read. Its parts borrow the octets.
#[derive(Clone, Copy)]
pub struct Crl<'a> {
    /// tbsCertList: the signed part.
    pub tbs: Tlv<'a>,
    /// The algorithm of the signature, from the signed part. The same octets stand behind that part.
    pub algorithm: AlgorithmIdentifier<'a>,
    /// A name that is not empty.
    pub issuer: Name<'a>,
    /// In seconds from 1970-01-01T00:00:00Z.
    pub this_update: i64,
    /// In seconds from 1970-01-01T00:00:00Z.
    pub next_update: i64,
    /// The entries, in order.
    pub revoked: Entries<'a>,
    pub number: CrlNumber<'a>,
    /// Which certificates the list is about.
    pub scope: Scope,
    /// The names of the point where the list is published (5.2.5); `None` for a whole list.
    pub points: Option<GeneralNames<'a>>,
    /// signatureValue, in which no bit is unused.
    pub signature: BitString<'a>,
}

/// The components of the signed part up to nextUpdate.
#[derive(Clone, Copy)]
pub(crate) struct ListHead<'a> {
    signature: AlgorithmIdentifier<'a>,
    issuer: Name<'a>,
    this_update: i64,
    next_update: i64,
}

/// Takes Version ::= INTEGER { v1(0), v2(1) }, which has to be v2.
#[tactic(auto, unfolding(crate::specs::CertificateList::version_2, asn::specs::Walk::check_that))]
fn take_version(members: &mut Cursor<'_>) -> Result<(), StatementRefusal>
    ensures { Gives (λ _. left members.new) result (version_2 (left members.old)) }
{
    let value = members.next_or(StatementRule::Layout)?;
    if value.tag == INTEGER && value.body == [1].as_slice() {
        Ok(())
    } else {
        Err((StatementRule::NotV2, value.at))
    }
}

impl<'a> ListHead<'a> {
    /// version, signature, issuer, thisUpdate, nextUpdate
    #[tactic(auto, unfolding(crate::specs::CertificateList::list_head))]
    fn take(members: &mut Cursor<'a>) -> Result<ListHead<'a>, StatementRefusal>
        ensures { StepGives seen_list_head result members.old members.new list_head }
    {
        take_version(members)?;
        let signature = take_algorithm(members)?;
        let issuer = take_issuer(members)?;
        let this_update = members.time(StatementRule::Layout, StatementRule::Layout)?;
        let next_update = members.time(StatementRule::NoNextUpdate, StatementRule::Layout)?;
        Ok(ListHead {
            signature,
            issuer,
            this_update,
            next_update,
        })
    }
}

/// The signed part, read.
#[derive(Clone, Copy)]
pub(crate) struct TbsCertList<'a> {
    head: ListHead<'a>,
    revoked: Entries<'a>,
    named: NumberAndScope<'a>,
}

impl<'a> TbsCertList<'a> {
    /// TBSCertList ::= SEQUENCE { version, signature, issuer, thisUpdate, nextUpdate, revokedCertificates, crlExtensions [0] }
    #[tactic(auto, unfolding(crate::specs::CertificateList::tbs_cert_list))]
    fn read(
        alloc: Global,
        profile: Profile,
        value: Tlv<'a>,
    ) -> Result<TbsCertList<'a>, ReadingFault>
        ensures { StatementGivesUnlessFull seen_tbs_list result
            (tbs_cert_list profile (seen_tlv value.entry)) }
    {
        value.is_a(SEQUENCE, StatementRule::Layout)?;
        let mut members = value.members();
        let head = ListHead::take(&mut members)?;
        let revoked = take_entries(alloc, &mut members)?;
        let named = NumberAndScope::take(alloc, profile, &mut members)?;
        members.ended(StatementRule::Layout)?;
        Ok(TbsCertList {
            head,
            revoked,
            named,
        })
    }
}

impl<'a> Crl<'a> {
    /// Reads a list from DER (RFC 5280, 5.1), or answers the first fault: the rule that is broken, and the offset of the value that breaks
    /// it. Fields are parts of the octets. Time is linear in the octets; an entry, or the list, with more than 16 extensions takes memory
    /// for their types, and n log n time.
    pub fn read(alloc: Global, octets: &'a [u8]) -> Result<Crl<'a>, ReadingFault>
        ensures { StatementGivesUnlessFull seen_list result (certificate_list octets.now) }
    {
        Crl::read_under(alloc, Profile::Stated, octets)
    }

    /// As `read`, of a value in the text handed to `asn::whole`, with offsets in that text.
    pub fn at(alloc: Global, value: Tlv<'a>) -> Result<Crl<'a>, ReadingFault>
        ensures { StatementGivesUnlessFull seen_list result
            (certificate_list_at (seen_tlv value.entry)) }
    {
        Crl::at_under(alloc, Profile::Stated, value)
    }

    /// As `read`, in a profile. In the wide one issuingDistributionPoint (5.2.5) may also have a full name, alone or with one of the two
    /// flags; the list has the names as its `points`.
    #[tactic(auto, unfolding(crate::specs::CertificateList::certificate_list_under))]
    pub fn read_under(
        alloc: Global,
        profile: Profile,
        octets: &'a [u8],
    ) -> Result<Crl<'a>, ReadingFault>
        ensures { StatementGivesUnlessFull seen_list result
            (certificate_list_under profile octets.now) }
    {
        let value = outermost(octets)?;
        Crl::at_under(alloc, profile, value)
    }

    /// CertificateList ::= SEQUENCE { tbsCertList TBSCertList, signatureAlgorithm AlgorithmIdentifier, signatureValue BIT STRING }
    ///
    /// As `read_under`, of a value in the text handed to `asn::whole`, with offsets in that text.
    #[tactic(auto, unfolding(crate::specs::CertificateList::certificate_list_at_under))]
    pub fn at_under(
        alloc: Global,
        profile: Profile,
        value: Tlv<'a>,
    ) -> Result<Crl<'a>, ReadingFault>
        ensures { StatementGivesUnlessFull seen_list result
            (certificate_list_at_under profile (seen_tlv value.entry)) }
    {
        value.is_a(SEQUENCE, StatementRule::Layout)?;
        let mut members = value.members();
        let signed = members.next_or(StatementRule::Layout)?;
        let tbs = TbsCertList::read(alloc, profile, signed)?;
        take_same_algorithm(tbs.head.signature, &mut members)?;
        let signature = take_signature(&mut members)?;
        members.ended(StatementRule::Layout)?;
        Ok(Crl {
            tbs: signed,
            algorithm: tbs.head.signature,
            issuer: tbs.head.issuer,
            this_update: tbs.head.this_update,
            next_update: tbs.head.next_update,
            revoked: tbs.revoked,
            number: tbs.named.number,
            scope: tbs.named.scope,
            points: tbs.named.points,
            signature,
        })
    }

    /// The number of the reason of the first entry with this serial number (its contents octets); `None` if no entry has it. Time is
    /// linear in the list; no memory is taken.
    #[tactic(auto, using(crate::proofs::FirstReason::reason_at))]
    pub fn lists(&self, serial: &[u8]) -> Option<u8>
        ensures { result ≡ reason_listed (seen_list self.now).entries serial.now }
    {
        let mut entries = self.revoked;
        while let Some(listed) = entries.next_listed() {
            if listed.serial == serial {
                return Some(listed.reason);
            }
        }
        None
    }
}
