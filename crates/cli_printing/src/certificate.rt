//! What a certificate says, a line each.
ghost use Rattle.std.specs.Prelude.{◌≡◌, codes, map, option_map};
ghost use Rattle.std.specs.List.{flat_map};
ghost use Rattle.asn.specs.Oid.{oid_contents};
ghost use Rattle.asn.specs.Place.{body, seen_tlv};
ghost use Rattle.asn.specs.Walk.{seen};
ghost use Rattle.names.specs.NameOctets.{raw_of};
ghost use Rattle.names.specs.GeneralView.{general_name, subtree_base};
ghost use Rattle.cert.specs.BasicConstraints.{seen_basic_constraints};
ghost use Rattle.cert.specs.BitString.{seen_bit_string};
ghost use Rattle.cert.specs.Certificate.{seen_certificate};
ghost use Rattle.cert.specs.Extensions.{seen_extensions};
ghost use Rattle.cert.specs.KeyUsage.{seen_key_usage};
ghost use Rattle.cert.specs.Validity.{seen_validity};
ghost use Rattle.cli_printing.specs.CertificateText.{alternative_line, base_line, basic_lines, certificate_text, constraint_lines, extension_lines, field_lines, name_line, octets_line, oid_line, purpose_lines, usage_lines, validity_lines, version_lines, word_line};
ghost use Rattle.cli_printing.specs.Written.{Writes};

use crate::general::{write_base, write_general};
use crate::name::write_name;
use crate::oid_text::write_oid;
use crate::text::write_contents;
use asn::{Oid, Tlv};
use cert::{BasicConstraints, BitString, Certificate, Extensions, KeyUsage, Validity, Version};
use names::{General, Name, Subtree};
use std::io;
use std::io::Write;

/// Writes a line: the word, and the octets if there are any.
pub fn write_octets<W: Write>(word: &str, octets: &[u8], writer: &mut W) -> io::Result<()>
    ensures { Writes W.contents writer.old writer.new result (octets_line word.now octets.now) }
{
    writer.write_all(word.as_bytes())?;
    write_contents(octets, writer)?;
    writer.write_all(b"\n")
}

fn write_version<W: Write>(version: Version, writer: &mut W) -> io::Result<()>
    ensures { Writes W.contents writer.old writer.new result (version_lines version) }
{
    writeln!(writer, "certificate\nversion {}", version.number())
}

pub(crate) fn write_named<W: Write>(word: &str, name: &Name<'_>, writer: &mut W) -> io::Result<()>
    ensures { Writes W.contents writer.old writer.new result
        (name_line word.now (raw_of name.now)) }
{
    write!(writer, "{word} ")?;
    write_name(name, writer)?;
    writer.write_all(b"\n")
}

fn write_validity<W: Write>(validity: &Validity, writer: &mut W) -> io::Result<()>
    ensures { Writes W.contents writer.old writer.new result
        (validity_lines (seen_validity validity.now)) }
{
    writeln!(writer, "from {}", validity.not_before)?;
    writeln!(writer, "until {}", validity.not_after)
}

fn write_serial<W: Write>(serial: Tlv<'_>, writer: &mut W) -> io::Result<()>
    ensures { Writes W.contents writer.old writer.new result
        (octets_line (codes "serial") (body (seen_tlv serial.entry))) }
{
    write_octets("serial", serial.body, writer)
}

fn write_key<W: Write>(key: BitString<'_>, writer: &mut W) -> io::Result<()>
    ensures { Writes W.contents writer.old writer.new result
        (octets_line (codes "key") (seen_bit_string key.entry).octets) }
{
    write_octets("key", key.octets(), writer)
}

// The lines up to the key.
fn write_fields<W: Write>(certificate: &Certificate<'_>, writer: &mut W) -> io::Result<()>
    ensures { Writes W.contents writer.old writer.new result
        (field_lines (seen_certificate certificate.now)) }
{
    write_version(certificate.version, writer)?;
    write_serial(certificate.serial, writer)?;
    write_named("issuer", &certificate.issuer, writer)?;
    write_named("subject", &certificate.subject, writer)?;
    write_validity(&certificate.validity, writer)?;
    write_key(certificate.subject_public_key_info.key, writer)
}

fn write_basic<W: Write>(constraints: Option<BasicConstraints>, writer: &mut W) -> io::Result<()>
    ensures { Writes W.contents writer.old writer.new result
        (basic_lines (seen seen_basic_constraints constraints)) }
{
    let Some(constraints) = constraints else {
        return Ok(());
    };
    match (constraints.ca, constraints.path_length) {
        (false, _) => writer.write_all(b"basic no\n"),
        (true, None) => writer.write_all(b"basic ca\n"),
        (true, Some(length)) => writeln!(writer, "basic ca {length}"),
    }
}

fn write_usage<W: Write>(usage: Option<KeyUsage<'_>>, writer: &mut W) -> io::Result<()>
    ensures { Writes W.contents writer.old writer.new result
        (usage_lines (seen seen_key_usage usage.entry)) }
{
    match usage {
        None => Ok(()),
        Some(usage) => write_octets("usage", usage.bits, writer),
    }
}

fn write_alternative<W: Write>(name: &General<'_>, writer: &mut W) -> io::Result<()>
    ensures { Writes W.contents writer.old writer.new result
        (alternative_line (general_name name.now)) }
{
    writer.write_all(b"alt ")?;
    write_general(name, writer)?;
    writer.write_all(b"\n")
}

fn write_alternatives<W: Write>(names: &[General<'_>], writer: &mut W) -> io::Result<()>
    ensures { Writes W.contents writer.old writer.new result
        (flat_map alternative_line (map general_name names.now)) }
{
    'names: for name in names {
        write_alternative(name, writer)?;
    }
    Ok(())
}

fn write_subtree<W: Write>(word: &str, base: &Subtree<'_>, writer: &mut W) -> io::Result<()>
    ensures { Writes W.contents writer.old writer.new result
        (base_line word.now (subtree_base base.now)) }
{
    write!(writer, "{word} ")?;
    write_base(base, writer)?;
    writer.write_all(b"\n")
}

fn write_subtrees<W: Write>(word: &str, bases: &[Subtree<'_>], writer: &mut W) -> io::Result<()>
    ensures { Writes W.contents writer.old writer.new result
        (flat_map (base_line word.now) (map subtree_base bases.now)) }
{
    'bases: for base in bases {
        write_subtree(word, base, writer)?;
    }
    Ok(())
}

fn write_identifier<W: Write>(word: &str, oid: Oid<'_>, writer: &mut W) -> io::Result<()>
    ensures { Writes W.contents writer.old writer.new result
        (oid_line word.now (oid_contents oid.entry)) }
{
    write!(writer, "{word} ")?;
    write_oid(oid.contents(), writer)?;
    writer.write_all(b"\n")
}

fn write_identifiers<W: Write>(word: &str, oids: &[Oid<'_>], writer: &mut W) -> io::Result<()>
    ensures { Writes W.contents writer.old writer.new result
        (flat_map (oid_line word.now) (map oid_contents oids.now)) }
{
    'oids: for oid in oids {
        write_identifier(word, *oid, writer)?;
    }
    Ok(())
}

// A line, if that is so.
fn write_where<W: Write>(is_so: bool, line: &str, writer: &mut W) -> io::Result<()>
    ensures { Writes W.contents writer.old writer.new result (word_line line.now is_so) }
{
    match is_so {
        true => writer.write_all(line.as_bytes()),
        false => Ok(()),
    }
}

// What the extensions say of names.
fn write_constraints<W: Write>(said: &Extensions<'_>, writer: &mut W) -> io::Result<()>
    ensures { Writes W.contents writer.old writer.new result
        (constraint_lines (seen_extensions said.now)) }
{
    write_alternatives(said.alternative_names.as_slice(), writer)?;
    write_subtrees("permit", said.name_constraints.permitted.as_slice(), writer)?;
    write_subtrees("exclude", said.name_constraints.excluded.as_slice(), writer)
}

// What they say of other matters.
fn write_purposes<W: Write>(said: &Extensions<'_>, writer: &mut W) -> io::Result<()>
    ensures { Writes W.contents writer.old writer.new result
        (purpose_lines (seen_extensions said.now)) }
{
    write_identifiers("purpose", said.purposes.as_slice(), writer)?;
    write_where(said.needs_policy_processing, "policy\n", writer)?;
    write_identifiers("critical", said.unrecognised.as_slice(), writer)?;
    write_where(said.no_check, "nocheck\n", writer)
}

fn write_extensions<W: Write>(said: &Extensions<'_>, writer: &mut W) -> io::Result<()>
    ensures { Writes W.contents writer.old writer.new result
        (extension_lines (seen_extensions said.now)) }
{
    write_basic(said.basic_constraints, writer)?;
    write_usage(said.key_usage, writer)?;
    write_constraints(said, writer)?;
    write_purposes(said, writer)
}

/// Writes what the certificate says, a line each: its fields in the order of the standard, and then what its extensions say.
/// It takes no memory.
pub fn certificate_to<W: Write>(certificate: &Certificate<'_>, writer: &mut W) -> io::Result<()>
    ensures { Writes W.contents writer.old writer.new result
        (certificate_text (seen_certificate certificate.now)) }
{
    write_fields(certificate, writer)?;
    write_extensions(&certificate.extensions, writer)
}
