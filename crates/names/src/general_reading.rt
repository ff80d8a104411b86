//! Reading general names, and the bases of subtrees (RFC 5280, 4.2.1.6 and 4.2.1.10).

ghost use Rattle.std.specs.Prelude.{◌≡◌};
ghost use Rattle.asn.specs.Place.{text_at};
ghost use Rattle.asn.specs.Reading.{seen_tlv, Gives};
ghost use Rattle.names.specs.GeneralLayout.{form_of_identifier, explicit_name, general, dns_name_at, ip_address_at, base, dns_base_at, ip_base_at};
ghost use Rattle.names.specs.Bases.{DnsNameTestIsExact, NamesOfBaseAreExact, AddressTestIsExact, RangeOfBaseIsExact, RefusedBaseIsExact};
ghost use Rattle.names.specs.GeneralCoverage.{CoverageTestIsExact, CoverageIsOfContents, InsideIsOfContents, NameFormIsOfContents, BaseFormIsOfContents, FormTestIsOfContents, BaseInsideIsSound, SharedBasesAreNested, CoveredIsOfForm, CoveredIsProcessed, BaseFormTestIsExact};
ghost use Rattle.names.specs.GeneralForms.{GeneralNamesAreRead, SubtreeBasesAreRead};
ghost use Rattle.names.specs.GeneralView.{name_contents, general_name, subtree_base};

use crate::dns::{Domain, is_dns_name};
use crate::general::{Form, General};
use crate::ip::{IpFault, IpRange, is_ip_address};
use crate::subtree::Subtree;
use asn::Tlv;
use names_distinguished::{Name, NameRefusal, NameRule};

const DIRECTORY_NAME: u8 = 0xA4;

/// The form of general names with this identifier octet: a context tag, with the constructed flag in the forms 0, 3, 4 and 5; `None` for
/// others.
#[tactic(auto, unfolding(crate::specs::GeneralLayout::form_of_identifier))]
pub fn form_of_tag(tag: u8) -> Option<Form>
    ensures form { result ≡ form_of_identifier tag }
    ensures directory { result ≡ Some Form.Directory → tag ≡ DIRECTORY_NAME }
{
    match tag {
        0xA0 => Some(Form::Other(0)),
        0x81 => Some(Form::Other(1)),
        0x82 => Some(Form::Dns),
        0xA3 => Some(Form::Other(3)),
        DIRECTORY_NAME => Some(Form::Directory),
        0xA5 => Some(Form::Other(5)),
        0x86 => Some(Form::Other(6)),
        0x87 => Some(Form::Ip),
        0x88 => Some(Form::Other(8)),
        _ => None,
    }
}

/// directoryName [4] Name, whose tag is explicit since Name is a CHOICE (X.680, 31.2.7).
#[tactic(auto, unfolding(crate::specs::GeneralLayout::explicit_name))]
fn read_explicit_name(value: Tlv<'_>) -> Result<Name<'_>, NameRefusal>
    requires { value.tag ≡ DIRECTORY_NAME }
    ensures { Gives name_contents result (explicit_name (seen_tlv value.entry)) }
{
    let mut names = value.members();
    let first = names.next_or(NameRule::NameLayout)?;
    let name = Name::at(first)?;
    names.ended(NameRule::NameLayout)?;
    Ok(name)
}

/// dNSName [2] IA5String
#[tactic(auto, unfolding(crate::specs::GeneralLayout::dns_name_at, asn::specs::Walk::check_that))]
fn read_dns_name(value: Tlv<'_>) -> Result<General<'_>, NameRefusal>
    ensures { Gives general_name result (dns_name_at (seen_tlv value.entry)) }
{
    if is_dns_name(value.body) {
        Ok(General::Dns(value.body))
    } else {
        Err((NameRule::DnsForm, value.at))
    }
}

/// iPAddress [7] OCTET STRING
#[tactic(auto, unfolding(crate::specs::GeneralLayout::ip_address_at, asn::specs::Walk::check_that))]
fn read_ip_address(value: Tlv<'_>) -> Result<General<'_>, NameRefusal>
    ensures { Gives general_name result (ip_address_at (seen_tlv value.entry)) }
{
    if is_ip_address(value.body) {
        Ok(General::Ip(value.body))
    } else {
        Err((NameRule::IpForm, value.at))
    }
}

impl<'a> General<'a> {
    /// As `read`, with offsets in the text handed to `asn::whole`.
    #[tactic(auto, unfolding(crate::specs::GeneralLayout::general))]
    pub fn at(value: Tlv<'a>) -> Result<General<'a>, NameRefusal>
        ensures { Gives general_name result (general (seen_tlv value.entry)) }
    {
        match form_of_tag(value.tag) {
            Some(Form::Directory) => Ok(General::Directory(read_explicit_name(value)?)),
            Some(Form::Dns) => read_dns_name(value),
            Some(Form::Ip) => read_ip_address(value),
            Some(Form::Other(number)) => Ok(General::Other(number, value.body)),
            None => Err((NameRule::NameLayout, value.at)),
        }
    }

    /// Reads a general name (RFC 5280, 4.2.1.6), or answers the first fault, with its offset in the value. The contents of forms other
    /// than directoryName, dNSName and iPAddress are free. No memory is taken.
    pub fn read(value: Tlv<'a>) -> Result<General<'a>, NameRefusal>
        ensures { Gives general_name result (general (text_at value.entry.whole.now 0)) }
    {
        General::at(value.alone())
    }
}

/// The base of a dNSName constraint.
#[tactic(auto, unfolding(crate::specs::GeneralLayout::dns_base_at))]
fn read_dns_base(value: Tlv<'_>) -> Result<Subtree<'_>, NameRefusal>
    ensures { Gives subtree_base result (dns_base_at (seen_tlv value.entry)) }
{
    match Domain::of_base(value.body) {
        Some(domain) => Ok(Subtree::Dns(domain)),
        None => Err((NameRule::DnsForm, value.at)),
    }
}

/// The base of an iPAddress constraint.
#[tactic(auto, unfolding(crate::specs::GeneralLayout::ip_base_at))]
fn read_ip_base(value: Tlv<'_>) -> Result<Subtree<'_>, NameRefusal>
    ensures { Gives subtree_base result (ip_base_at (seen_tlv value.entry)) }
{
    match IpRange::of_base(value.body) {
        Ok(range) => Ok(Subtree::Ip(range)),
        Err(IpFault::Length) => Err((NameRule::IpForm, value.at)),
        Err(IpFault::Mask) => Err((NameRule::MaskForm, value.at)),
    }
}

impl<'a> Subtree<'a> {
    /// As `read_base`, with offsets in the text handed to `asn::whole`.
    #[tactic(auto, unfolding(crate::specs::GeneralLayout::base))]
    pub fn base_at(value: Tlv<'a>) -> Result<Subtree<'a>, NameRefusal>
        ensures { Gives subtree_base result (base (seen_tlv value.entry)) }
    {
        match form_of_tag(value.tag) {
            Some(Form::Directory) => Ok(Subtree::Directory(read_explicit_name(value)?)),
            Some(Form::Dns) => read_dns_base(value),
            Some(Form::Ip) => read_ip_base(value),
            Some(Form::Other(number)) => Ok(Subtree::Other(number, value.body)),
            None => Err((NameRule::NameLayout, value.at)),
        }
    }

    /// Reads the base of a subtree (RFC 5280, 4.2.1.10), or answers the first fault, with its offset in the value. The contents of forms
    /// other than directoryName, dNSName and iPAddress are free. No memory is taken.
    pub fn read_base(value: Tlv<'a>) -> Result<Subtree<'a>, NameRefusal>
        ensures { Gives subtree_base result (base (text_at value.entry.whole.now 0)) }
    {
        Subtree::base_at(value.alone())
    }
}

/// Exactly the general names and bases of RFC 5280 are read; the tests of DNS names, addresses and bases decide the relations.
pub fn general_laws()
    ensures general { GeneralNamesAreRead }
    ensures base { SubtreeBasesAreRead }
    ensures dns_name { DnsNameTestIsExact }
    ensures dns_base { NamesOfBaseAreExact }
    ensures address { AddressTestIsExact }
    ensures ip_base { RangeOfBaseIsExact }
    ensures refused { RefusedBaseIsExact }
{}

/// Whether a name lies in a subtree, or a subtree in another, depends on what they say, not on where they lie in memory. The tests on what
/// they say decide the relations, and the laws of `subtree_laws` hold of them.
pub fn coverage_laws()
    ensures test { CoverageTestIsExact }
    ensures covers { CoverageIsOfContents }
    ensures inside { InsideIsOfContents }
    ensures name_form { NameFormIsOfContents }
    ensures base_form { BaseFormIsOfContents }
    ensures has_form { FormTestIsOfContents }
    ensures sound { BaseInsideIsSound }
    ensures nested { SharedBasesAreNested }
    ensures form { CoveredIsOfForm }
    ensures processed { CoveredIsProcessed }
    ensures form_test { BaseFormTestIsExact }
{}
