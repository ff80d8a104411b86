//! Points at which lists are published, behind the keys of names.

ghost use Rattle.std.specs.Prelude.{◌≡◌, option_map};
ghost use Rattle.asn.specs.Outermost.{outermost};
ghost use Rattle.names.specs.GeneralView.{general_name};
ghost use Rattle.cli_printing.specs.Written.{Writes};
ghost use Rattle.cli_listing.specs.PointText.{behind_attribute, behind_counted, behind_name, behind_set, behind_value};
ghost use Rattle.cli_listing.specs.PointText.{general_in, has_own_text, issuer_point_text, number_in, point_name_text};
ghost use Rattle.cli_listing.specs.Found.{found_issuer};

use asn::Tlv;
use cli_printing::{write_general, write_hex};
use names::General;
use std::io;
use std::io::Write;
use store_listing::HeldIssuer;

// A number in four octets, and what stands behind it.
fn number_in(octets: &[u8]) -> Option<(u32, &[u8])>
    ensures { option_map (λ read. (read.0, read.1.now)) result ≡ number_in octets.now }
{
    let number = u32::from_be_bytes(*octets.first_chunk::<4>()?);
    let (_, rest) = octets.split_at(4);
    Some((number, rest))
}

// What stands behind octets after their number.
fn behind_counted(octets: &[u8]) -> Option<&[u8]>
    ensures { option_map (λ rest. rest.now) result ≡ behind_counted octets.now }
{
    let (count, rest) = number_in(octets)?;
    if rest.len() < count as usize {
        return None;
    }
    let (_, behind) = rest.split_at(count as usize);
    Some(behind)
}

// What stands behind the value of an attribute, whose first octet says its form.
fn behind_value(octets: &[u8]) -> Option<&[u8]>
    ensures { option_map (λ rest. rest.now) result ≡ behind_value octets.now }
{
    match octets {
        [] => None,
        [_, counted @ ..] => behind_counted(counted),
    }
}

// What stands behind an attribute.
fn behind_attribute(octets: &[u8]) -> Option<&[u8]>
    ensures { option_map (λ rest. rest.now) result ≡ behind_attribute octets.now }
{
    behind_value(behind_counted(octets)?)
}

// What stands behind a set of attributes.
#[tactic(auto, using(crate::proofs::Points::one_more, crate::proofs::Points::none_more))]
fn behind_set(octets: &[u8]) -> Option<&[u8]>
    ensures { option_map (λ rest. rest.now) result ≡ behind_set octets.now }
{
    let (count, attributes) = number_in(octets)?;
    let mut left = count;
    let mut rest = attributes;
    while left > 0 {
        rest = behind_attribute(rest)?;
        left -= 1;
    }
    Some(rest)
}

// What stands behind the key of a name; `None` if the octets begin with none. Time is linear in the octets.
#[tactic(auto, using(crate::proofs::Points::one_more, crate::proofs::Points::none_more))]
fn point_in(octets: &[u8]) -> Option<&[u8]>
    ensures { option_map (λ rest. rest.now) result ≡ behind_name octets.now }
{
    let (count, sets) = number_in(octets)?;
    let mut left = count;
    let mut rest = sets;
    while left > 0 {
        rest = behind_set(rest)?;
        left -= 1;
    }
    Some(rest)
}

// The general name that the octets encode.
fn general_in(octets: &[u8]) -> Option<General<'_>>
    ensures { option_map general_name result ≡ general_in (outermost octets.now) }
{
    let Ok(value) = Tlv::outermost(octets) else {
        return None;
    };
    match General::at(value) {
        Ok(name) => Some(name),
        Err(_) => None,
    }
}

// Whether no other name is printed as this one.
fn has_own_text(name: &General<'_>) -> bool
    ensures { result ≡ has_own_text (general_name name.now) }
{
    match name {
        General::Directory(_) => false,
        General::Dns(_) | General::Ip(_) | General::Other(..) => true,
    }
}

// The general name that the octets encode, if it has a text of its own; or the octets in hexadecimal.
fn write_name<W: Write>(octets: &[u8], writer: &mut W) -> io::Result<()>
    ensures { Writes W.contents writer.old writer.new result
        (point_name_text octets.now (general_in (outermost octets.now))) }
{
    match general_in(octets) {
        Some(name) if has_own_text(&name) => write_general(&name, writer),
        _ => write_hex(octets, writer),
    }
}

/// Writes the point for which the lists of the issuer are kept, if they are for one.
#[tactic(auto, unfolding(crate::specs::PointText::issuer_point_text))]
pub(crate) fn write_point<W: Write>(issuer: Option<&HeldIssuer>, writer: &mut W) -> io::Result<()>
    ensures { Writes W.contents writer.old writer.new result
        (issuer_point_text (found_issuer issuer.entry)) }
{
    let Some(issuer) = issuer else {
        return Ok(());
    };
    match point_in(issuer.name.as_slice()) {
        None | Some([]) => Ok(()),
        Some(octets) => {
            writer.write_all(b" point ")?;
            write_name(octets, writer)
        }
    }
}
