//! Distinguished names as text.
ghost use Rattle.std.specs.Prelude.{◌≡◌};
ghost use Rattle.std.specs.List.{flat_map};
ghost use Rattle.asn.specs.Place.{seen_tlv};
ghost use Rattle.asn.specs.Members.{left};
ghost use Rattle.names.specs.NameOctets.{raw_of};
ghost use Rattle.cli_printing.specs.NameText.{attribute_text, attributes_text, name_text, next_attribute_text, rdn_text, rdns_text, value_text};
ghost use Rattle.cli_printing.specs.Written.{Writes};

use crate::oid_text::write_oid;
use crate::text::{write_escaped, write_hex};
use asn::{Cursor, Tlv};
use names::{Name, is_text};
use std::io;
use std::io::Write;

// The value of an attribute: a text, or all octets of another value.
fn write_value<W: Write>(value: Tlv<'_>, writer: &mut W) -> io::Result<()>
    ensures { Writes W.contents writer.old writer.new result (value_text (seen_tlv value.entry)) }
{
    if is_text(value.tag) {
        return write_escaped(value.body, writer);
    }
    writer.write_all(b"#")?;
    write_hex(value.whole, writer)
}

// AttributeTypeAndValue ::= SEQUENCE { type OBJECT IDENTIFIER, value ANY }
fn write_attribute<W: Write>(attribute: Tlv<'_>, writer: &mut W) -> io::Result<()>
    ensures { Writes W.contents writer.old writer.new result
        (attribute_text (seen_tlv attribute.entry)) }
{
    let Some(mut members) = attribute.inside() else {
        return Ok(());
    };
    let (Some(kind), Some(value)) = (members.next(), members.next()) else {
        return Ok(());
    };
    write_oid(kind.body, writer)?;
    writer.write_all(b"=")?;
    write_value(value, writer)
}

// The attributes of an RDN, with a plus between them.
fn write_attributes<W: Write>(attributes: Cursor<'_>, writer: &mut W) -> io::Result<()>
    ensures { Writes W.contents writer.old writer.new result
        (attributes_text (left attributes.entry).values) }
{
    let mut others = attributes;
    let Some(first) = others.next() else {
        return Ok(());
    };
    write_attribute(first, writer)?;
    while let Some(attribute) = others.next() {
        writer.write_all(b"+")?;
        write_attribute(attribute, writer)?;
    }
    Ok(())
}

// RelativeDistinguishedName ::= SET OF AttributeTypeAndValue
fn write_rdn<W: Write>(rdn: Tlv<'_>, writer: &mut W) -> io::Result<()>
    ensures { Writes W.contents writer.old writer.new result (rdn_text (seen_tlv rdn.entry)) }
{
    writer.write_all(b"/")?;
    match rdn.inside() {
        Some(attributes) => write_attributes(attributes, writer),
        None => Ok(()),
    }
}

fn write_rdns<W: Write>(rdns: Cursor<'_>, writer: &mut W) -> io::Result<()>
    ensures { Writes W.contents writer.old writer.new result
        (flat_map rdn_text (left rdns.entry).values) }
{
    let mut rdns = rdns;
    while let Some(rdn) = rdns.next() {
        write_rdn(rdn, writer)?;
    }
    Ok(())
}

// The RDNs; if there are none, a hyphen.
#[tactic(auto, unfolding(asn::specs::Members::none_left))]
fn write_sequence<W: Write>(rdns: Cursor<'_>, writer: &mut W) -> io::Result<()>
    ensures { Writes W.contents writer.old writer.new result (rdns_text (left rdns.entry).values) }
{
    if rdns.end() {
        return writer.write_all(b"-");
    }
    write_rdns(rdns, writer)
}

/// Writes the name: a slash before each RDN, a plus between its attributes, each `OID=VALUE`; the empty name is a hyphen.
#[tactic(auto, unfolding(crate::specs::NameText::name_text))]
pub fn write_name<W: Write>(name: &Name<'_>, writer: &mut W) -> io::Result<()>
    ensures { Writes W.contents writer.old writer.new result (name_text (raw_of name.now)) }
{
    write_sequence(name.rdns(), writer)
}
