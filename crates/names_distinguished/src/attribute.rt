//! Attributes of names (X.501, AttributeTypeAndValue; RFC 5280, 4.1.2.4).

ghost use Rattle.std.specs.Prelude.{◌≡◌, ◌↔◌, ◌<◌, IsTrue, false};
ghost use Rattle.std.specs.List.{list_all};
ghost use Rattle.std.specs.Str.{is_utf8};
ghost use Rattle.std.specs.Char.{is_ascii};
ghost use Rattle.asn.specs.Reading.{seen_tlv, left, Gives};
ghost use Rattle.names_distinguished.specs.AttributeValue.{compared_value, is_text};
ghost use Rattle.names_distinguished.specs.NameLayout.{attribute_members, has_kind, has_kind_before, is_less, is_string, only_attribute};
ghost use Rattle.names_distinguished.specs.AttributeView.{seen_members, order_among, attribute_among};
ghost use Rattle.names_distinguished.specs.NameParts.{entry_of_parts};
ghost use Rattle.names_distinguished.specs.NameView.{entry_of};
ghost use Rattle.names_distinguished.specs.Repetition.{kind_at};

use crate::fault::{NameRefusal, NameRule};
use asn::{Cursor, IA5_STRING, OBJECT_IDENTIFIER, PRINTABLE_STRING, SEQUENCE, Tlv, UTF8_STRING};
use names_text::same_prepared;

/// The type of an attribute and its value.
#[derive(Clone, Copy, Default)]
pub struct Attribute<'a> {
    /// The contents of the object identifier that names the type.
    pub kind: &'a [u8],
    /// The identifier octet of the value.
    pub tag: u8,
    /// The contents of the value.
    pub contents: &'a [u8],
}

/// The members of an attribute.
#[derive(Clone, Copy)]
pub(crate) struct AttributeMembers<'a> {
    pub(crate) kind: Tlv<'a>,
    pub(crate) value: Tlv<'a>,
}

impl<'a> AttributeMembers<'a> {
    /// AttributeTypeAndValue ::= SEQUENCE { type OBJECT IDENTIFIER, value ANY }
    #[inline(always)]
    #[tactic(auto, unfolding(crate::specs::NameLayout::attribute_members))]
    pub(crate) fn read(attribute: Tlv<'a>) -> Result<AttributeMembers<'a>, NameRefusal>
        ensures { Gives seen_members result (attribute_members (seen_tlv attribute.entry)) }
    {
        attribute.is_a(SEQUENCE, NameRule::NameLayout)?;
        let mut members = attribute.members();
        let kind = members.required(OBJECT_IDENTIFIER, NameRule::NameLayout)?;
        let value = members.next_or(NameRule::NameLayout)?;
        members.ended(NameRule::NameLayout)?;
        Ok(AttributeMembers { kind, value })
    }

    /// The type and the value, without where they stand.
    pub(crate) fn attribute(&self) -> Attribute<'a>
        ensures { entry_of result ≡ entry_of_parts (seen_members self.now) }
    {
        Attribute {
            kind: self.kind.body,
            tag: self.value.tag,
            contents: self.value.body,
        }
    }
}

/// Whether the attribute has the type.
#[tactic(auto, unfolding(crate::specs::NameLayout::has_kind))]
fn is_of_kind(attribute: Tlv<'_>, kind: &[u8]) -> bool
    ensures { result ≡ has_kind kind.now (seen_tlv attribute.entry) }
{
    match AttributeMembers::read(attribute) {
        Ok(members) => members.kind.body == kind,
        Err(_) => false,
    }
}

/// Whether an attribute that stands before the offset has the type. It walks over these attributes.
fn repeats_kind(all: Cursor<'_>, at: usize, kind: &[u8]) -> bool
    ensures { result ≡ has_kind_before kind.now at (left all.entry).values }
{
    if at == all.at() {
        return false;
    }
    let mut earlier = all;
    while let Some(attribute) = earlier.next() {
        if attribute.at == at {
            return false;
        }
        if is_of_kind(attribute, kind) {
            return true;
        }
    }
    false
}

/// The same, if attributes before `clear` are known to have new types.
fn repeats_unless_clear(all: Cursor<'_>, clear: usize, at: usize, kind: &[u8]) -> bool
    requires { at < clear → has_kind_before kind.now at (left all).values ≡ false }
    ensures { result ≡ has_kind_before kind.now at (left all.entry).values }
{
    if at < clear {
        return false;
    }
    repeats_kind(all, at, kind)
}

fn is_utf8_text(contents: &[u8]) -> bool
    ensures { result ≡ is_utf8 contents.now }
{
    match std::str::from_utf8(contents) {
        Ok(_) => true,
        Err(_) => false,
    }
}

fn is_ascii_text(contents: &[u8]) -> bool
    ensures { result ≡ list_all is_ascii contents.now }
{
    contents.is_ascii()
}

/// Whether the contents are those of a string of the type that the identifier octet names. Types other than UTF8String,
/// PrintableString and IA5String are free.
#[tactic(auto, unfolding(crate::specs::NameLayout::is_string))]
pub(crate) fn is_well_formed_text(tag: u8, contents: &[u8]) -> bool
    ensures { result ≡ is_string tag contents.now }
{
    match tag {
        UTF8_STRING => is_utf8_text(contents),
        PRINTABLE_STRING | IA5_STRING => is_ascii_text(contents),
        _ => true,
    }
}

/// Looks at the place of an attribute among all of its RDN, behind one with the octets before.
#[tactic(auto, unfolding(crate::specs::NameLayout::attribute_order, asn::specs::Walk::check_that))]
fn check_order(
    all: Cursor<'_>,
    clear: usize,
    before: &[u8],
    kind: &[u8],
    tlv: Tlv<'_>,
) -> Result<(), NameRefusal>
    requires { tlv.at < clear → has_kind_before kind.now tlv.at (left all).values ≡ false }
    ensures { Gives (λ _. tt) result (order_among all.entry before.now kind.now tlv.entry) }
{
    if repeats_unless_clear(all, clear, tlv.at, kind) {
        return Err((NameRule::RdnRepeat, tlv.at));
    }
    if is_before(tlv.whole, before) {
        return Err((NameRule::SetOrder, tlv.at));
    }
    Ok(())
}

/// Whether octets come before others in a SET OF (X.690, 11.6).
fn is_before(octets: &[u8], other: &[u8]) -> bool
    ensures { result ≡ is_less octets.now other.now }
{
    octets.cmp(other).is_lt()
}

/// Reads an attribute of an RDN, whose attributes are all of those, behind one with the octets before, which are none for
/// the first; answers its own octets. Attributes before `clear` are known to have new types.
#[tactic(auto, unfolding(crate::specs::NameLayout::attribute, asn::specs::Walk::check_that))]
pub(crate) fn read_attribute<'a>(
    all: Cursor<'_>,
    clear: usize,
    before: &[u8],
    tlv: Tlv<'a>,
) -> Result<&'a [u8], NameRefusal>
    requires { tlv.at < clear
        → has_kind_before (kind_at (seen_tlv tlv)) tlv.at (left all).values ≡ false }
    ensures { Gives (λ octets. octets.now) result (attribute_among all.entry before.now tlv.entry) }
{
    let members = AttributeMembers::read(tlv)?;
    check_order(all, clear, before, members.kind.body, tlv)?;
    if is_well_formed_text(members.value.tag, members.value.body) {
        Ok(tlv.whole)
    } else {
        Err((NameRule::Text, members.value.at))
    }
}

/// Reads the only attribute of an RDN.
#[tactic(auto, unfolding(crate::specs::NameLayout::only_attribute, asn::specs::Walk::check_that))]
pub(crate) fn read_only_attribute(tlv: Tlv<'_>) -> Result<(), NameRefusal>
    ensures { Gives (λ _. tt) result (only_attribute (seen_tlv tlv.entry)) }
{
    let members = AttributeMembers::read(tlv)?;
    if is_well_formed_text(members.value.tag, members.value.body) {
        Ok(())
    } else {
        Err((NameRule::Text, members.value.at))
    }
}

/// Whether values with this identifier octet are compared as texts: PrintableString, UTF8String and IA5String.
pub fn is_text(tag: u8) -> bool
    ensures { result ≡ is_text tag }
{
    matches!(tag, UTF8_STRING | PRINTABLE_STRING | IA5_STRING)
}

impl<'a> Attribute<'a> {
    /// An attribute of the type, with no contents.
    pub(crate) fn of_type(kind: &'a [u8]) -> Attribute<'a>
        ensures { result.kind.now ≡ kind.entry.now }
    {
        Attribute {
            kind,
            tag: 0,
            contents: &[],
        }
    }
}

impl Attribute<'_> {
    /// Whether the values are equal after preparation (RFC 5280, 7.1).
    pub fn same_value(&self, other: &Attribute<'_>) -> bool
        ensures { IsTrue result ↔ (compared_value self.now ≡ compared_value other.now) }
    {
        if self.tag == other.tag && self.contents == other.contents {
            return true;
        }
        is_text(self.tag) && is_text(other.tag) && same_prepared(self.contents, other.contents)
    }
}
