//! Distinguished names (X.501, 9.2; RFC 5280, 4.1.2.4): read from octets, compared and turned into keys.

ghost use Rattle.std.specs.Prelude.{◌≡◌, ◌↔◌, ◌<◌, [], length, IsTrue, IfOk};
ghost use Rattle.asn.specs.Reading.{seen_tlv, remaining, left, members, Gives, each};
ghost use Rattle.asn.specs.Length.{contents_limit};
ghost use Rattle.asn.specs.Members.{HasMembersOf};
ghost use Rattle.asn.specs.Place.{text_at};
ghost use Rattle.asn.specs.Oid.{oid_contents};
ghost use Rattle.names_distinguished.specs.DistinguishedName.{NamesMatch, IsWithin, HasKind, matching, is_within, MatchingIsExact, WithinIsExact};
ghost use Rattle.names_distinguished.specs.NameKey.{name_key, rdns_key};
ghost use Rattle.names_distinguished.specs.NameParts.{rdns_at};
ghost use Rattle.names_distinguished.specs.NameLayout.{name, rdn, attributes, one_more_rdn};
ghost use Rattle.names_distinguished.specs.NameForms.{NameIsExact, NameHasLayout};
ghost use Rattle.names_distinguished.specs.NameComparison.{NameIsComparedByLayout};
ghost use Rattle.names_distinguished.specs.Repetition.{kinds_left, AreNew, IsRest};

use crate::attribute::{read_attribute, read_only_attribute};
use crate::fault::{NameRefusal, NameRule};
use crate::kinds::Kinds;
use crate::rdn_sequence::RdnSequence;
use crate::repetition::new_until;
use asn::{Cursor, Oid, SEQUENCE, SET, Tlv};
use std::alloc::{AllocError, Global};

/// A distinguished name. It borrows its octets and takes no memory.
#[derive(Clone, Copy)]
pub struct Name<'a> {
    pub(crate) raw: &'a [u8],
    pub(crate) offset: usize,
    pub(crate) rdns: RdnSequence<'a>,
    pub ghost members: { HasMembersOf rdns.rdns raw.now },
}

/// How far the attributes are known to have new types, once the one at the offset was read. A run is looked at when its first
/// attribute is the next.
fn clear_after(all: Cursor<'_>, clear: usize, at: usize, rest: Cursor<'_>) -> usize
    requires rest { IsRest (kinds_left all) (kinds_left rest) (remaining rest).at }
    requires new { at < clear → AreNew (kinds_left all) clear (kinds_left rest) }
    ensures { AreNew (kinds_left all.entry) result (kinds_left rest.entry) }
{
    if rest.end() {
        return clear;
    }
    let next = rest.at();
    if at < clear && next < clear {
        return clear;
    }
    new_until(Kinds { attributes: all }, Kinds { attributes: rest }, next)
}

/// Reads the attributes of an RDN, however many it has.
#[inline(never)]
fn read_several_attributes(all: Cursor<'_>) -> Result<(), NameRefusal>
    ensures { Gives (λ _. tt) result (attributes (left all.entry).values) }
{
    let mut rest = all;
    let mut before: &[u8] = &[];
    let mut clear = 0;
    while let Some(tlv) = rest.next() {
        before = read_attribute(all, clear, before, tlv)?;
        clear = clear_after(all, clear, tlv.at, rest);
    }
    Ok(())
}

/// Reads the attributes of an RDN; most have one.
fn read_attributes(all: Cursor<'_>) -> Result<(), NameRefusal>
    ensures { Gives (λ _. tt) result (attributes (left all.entry).values) }
{
    let mut rest = all;
    match rest.next() {
        Some(tlv) if rest.end() => read_only_attribute(tlv),
        _ => read_several_attributes(all),
    }
}

/// RelativeDistinguishedName ::= SET SIZE (1..MAX) OF AttributeTypeAndValue
#[tactic(auto, unfolding(crate::specs::NameLayout::rdn))]
fn read_rdn(tlv: Tlv<'_>) -> Result<(), NameRefusal>
    ensures { Gives (λ _. tt) result (rdn (seen_tlv tlv.entry)) }
{
    tlv.is_a(SET, NameRule::NameLayout)?;
    let attributes = tlv.members();
    attributes.some(NameRule::NameLayout)?;
    read_attributes(attributes)
}

/// SEQUENCE OF RelativeDistinguishedName
fn read_rdns(rdns: Cursor<'_>) -> Result<(), NameRefusal>
    ensures { Gives (λ _. tt) result (each one_more_rdn tt ((left rdns.entry).values)) }
{
    let mut rdns = rdns;
    while let Some(tlv) = rdns.next() {
        read_rdn(tlv)?;
    }
    Ok(())
}

/// Name ::= CHOICE { rdnSequence SEQUENCE OF RelativeDistinguishedName }
#[tactic(auto, unfolding(crate::specs::NameLayout::name))]
fn read_name(tlv: Tlv<'_>) -> Result<Cursor<'_>, NameRefusal>
    ensures walk { Gives (λ _. tt) result (name (seen_tlv tlv.entry)) }
    ensures rdns { IfOk result (λ rdns. left rdns ≡ members (seen_tlv tlv.entry)) }
    ensures short { IfOk result (λ rdns. length (remaining rdns).octets < contents_limit) }
{
    tlv.is_a(SEQUENCE, NameRule::NameLayout)?;
    let rdns = tlv.members();
    read_rdns(rdns)?;
    Ok(rdns)
}

impl<'a> Name<'a> {
    ghost use Rattle.names_distinguished.specs.NameOctets.{raw_of, offset_of, rdns_of};

    /// As `read`, with offsets in the text handed to `asn::whole`.
    pub fn at(tlv: Tlv<'a>) -> Result<Name<'a>, NameRefusal>
        ensures walk { Gives (λ _. tt) result (name (seen_tlv tlv.entry)) }
        ensures raw { IfOk result (λ found. raw_of found ≡ tlv.entry.whole.now) }
        ensures offset { IfOk result (λ found. offset_of found ≡ tlv.entry.at) }
        ensures rdns { IfOk result (λ found. rdns_of found ≡ rdns_at (seen_tlv tlv.entry)) }
    {
        let rdns = read_name(tlv)?;
        Ok(Name {
            raw: tlv.whole,
            offset: tlv.at,
            rdns: RdnSequence { rdns },
        })
    }

    /// Reads a name (RFC 5280, 4.1.2.4), or answers the first fault, with its offset in the value. No memory is taken. Time is linear in
    /// the octets if the attributes of an RDN have one size or are few; else each size of 256 attributes or more, and each 256 attributes
    /// of other sizes, cost a walk over those before.
    pub fn read(value: Tlv<'a>) -> Result<Name<'a>, NameRefusal>
        ensures walk { Gives (λ _. tt) result (name (text_at value.entry.whole.now 0)) }
        ensures raw { IfOk result (λ found. raw_of found ≡ value.entry.whole.now) }
        ensures offset { IfOk result (λ found. offset_of found ≡ 0) }
        ensures rdns { IfOk result (λ it. rdns_of it ≡ rdns_at (text_at value.entry.whole.now 0)) }
    {
        Name::at(value.alone())
    }

    /// The whole encoding of the name.
    #[tactic(auto, unfolding(crate::specs::NameOctets::raw_of))]
    pub fn raw(&self) -> &'a [u8]
        ensures { result.now ≡ raw_of self.now }
    {
        self.raw
    }

    /// The offset of the name in the text handed to `asn::whole`; 0 if `read` read it by itself.
    #[tactic(auto, unfolding(crate::specs::NameOctets::offset_of))]
    pub fn offset(&self) -> usize
        ensures { result ≡ offset_of self.now }
    {
        self.offset
    }

    /// The RDNs in order, each a SET of attributes: the members of the name.
    #[tactic(auto, unfolding(crate::specs::NameOctets::raw_of))]
    pub fn rdns(&self) -> Cursor<'a>
        ensures { HasMembersOf result (raw_of self.now) }
    {
        self.rdns.rdns
    }

    /// Whether the name has no RDN.
    #[tactic(auto, unfolding(crate::specs::NameOctets::rdns_of))]
    pub fn is_empty(&self) -> bool
        ensures { IsTrue result ↔ (rdns_of self.now ≡ []) }
    {
        self.rdns.is_empty()
    }

    /// Whether the names match (RFC 5280, 7.1): they have as many RDNs, which match in order. Names with the same octets match, and are
    /// not looked into. No memory is taken. Time is as for `read`.
    #[tactic(auto, unfolding(crate::specs::NameOctets::rdns_of))]
    pub fn matches(&self, other: &Name<'_>) -> bool
        ensures decides { IsTrue result ↔ NamesMatch (rdns_of self.now) (rdns_of other.now) }
        ensures test { result ≡ matching (rdns_of self.now) (rdns_of other.now) }
    {
        self.raw == other.raw || self.rdns.matches(&other.rdns)
    }

    /// Whether the name lies within the other (RFC 5280, 4.2.1.10): it begins with all RDNs of the other.
    #[tactic(auto, unfolding(crate::specs::NameOctets::rdns_of))]
    pub fn within(&self, other: &Name<'_>) -> bool
        ensures decides { IsTrue result ↔ IsWithin (rdns_of self.now) (rdns_of other.now) }
        ensures test { result ≡ is_within (rdns_of self.now) (rdns_of other.now) }
    {
        self.rdns.within(&other.rdns)
    }

    /// Whether some attribute of the name has the type.
    #[tactic(auto, unfolding(crate::specs::NameOctets::rdns_of))]
    pub fn has(&self, kind: Oid<'_>) -> bool
        ensures { IsTrue result ↔ HasKind (oid_contents kind.entry) (rdns_of self.now) }
    {
        self.rdns.has(kind.contents())
    }

    /// The key of the name: octets that two names share exactly if they match. Time is n log n in the octets.
    #[tactic(auto, unfolding(crate::specs::NameOctets::rdns_of))]
    pub fn key(&self, alloc: Global) -> Result<Vec<u8>, AllocError>
        ensures { IfOk result (λ key. key.items ≡ name_key (rdns_of self.now)) }
    {
        self.rdns.key(alloc)
    }

    /// The key without the number of RDNs: a name lies within another exactly if its octets begin with those of the other.
    #[tactic(auto, unfolding(crate::specs::NameOctets::rdns_of))]
    pub fn rdns_key(&self, alloc: Global) -> Result<Vec<u8>, AllocError>
        ensures { IfOk result (λ key. key.items ≡ rdns_key (rdns_of self.now)) }
    {
        self.rdns.rdns_key(alloc)
    }
}

/// The tests `matches` and `within` decide the relations. A place is read as a name exactly if it is one, and the encoding of a value
/// exactly if the value has the layout of one. It is compared as the sets of the attributes that the layout has.
pub fn name_laws()
    ensures matching { MatchingIsExact }
    ensures within { WithinIsExact }
    ensures layout { NameIsExact }
    ensures value { NameHasLayout }
    ensures compared { NameIsComparedByLayout }
{}
