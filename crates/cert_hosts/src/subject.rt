//! The mail addresses in the subject of a certificate (RFC 5280, 4.1.2.6).

ghost use Rattle.std.specs.Prelude.{◌≡◌, [], OnOk, flat_map, option_map};
ghost use Rattle.std.specs.List.{cons_option};
ghost use Rattle.asn.specs.Reading.{left, seen_tlv};
ghost use Rattle.names.specs.NameOctets.{raw_of};
ghost use Rattle.cert_hosts.specs.Mailboxes.{AddsMail, seen_value};
ghost use Rattle.cert_hosts.specs.OwnNames.{email_of, emails_of_rdn, emails_of};

use crate::mailboxes::MailValue;
use asn::{Cursor, Tlv};
use names::Name;
use names_hosts::MailName;
use std::alloc::AllocError;

/// id-emailAddress, 1.2.840.113549.1.9.1
const EMAIL_ADDRESS: &[u8] = b"\x2A\x86\x48\x86\xF7\x0D\x01\x09\x01";

/// AttributeTypeAndValue ::= SEQUENCE { type OBJECT IDENTIFIER, value ANY }: its value, if it is an emailAddress.
fn email_of(attribute: Tlv<'_>) -> Option<MailValue<'_>>
    ensures { cons_option (option_map seen_value result) [] ≡ email_of (seen_tlv attribute.entry) }
{
    let mut members = attribute.inside()?;
    let kind = members.next()?;
    let value = members.next()?;
    (kind.body == EMAIL_ADDRESS).then_some(MailValue::EmailAddress(value.tag, value.body))
}

/// Adds what the attribute says, if it is an emailAddress.
fn take_attribute<'a>(
    mail: &mut Vec<Option<MailName<'a>>>,
    attribute: Tlv<'a>,
) -> Result<(), AllocError>
    ensures { OnOk result (AddsMail mail.old mail.new (email_of (seen_tlv attribute.entry))) }
{
    if let Some(value) = email_of(attribute) {
        mail.push(value.mailbox())?;
    }
    Ok(())
}

/// The same of several.
fn take_attributes<'a>(
    mail: &mut Vec<Option<MailName<'a>>>,
    attributes: Cursor<'a>,
) -> Result<(), AllocError>
    ensures { OnOk result (AddsMail mail.old mail.new
        (flat_map email_of (left attributes.entry).values)) }
{
    let mut attributes = attributes;
    while let Some(attribute) = attributes.next() {
        take_attribute(mail, attribute)?;
    }
    Ok(())
}

/// RelativeDistinguishedName ::= SET OF AttributeTypeAndValue
fn take_rdn<'a>(mail: &mut Vec<Option<MailName<'a>>>, rdn: Tlv<'a>) -> Result<(), AllocError>
    ensures { OnOk result (AddsMail mail.old mail.new (emails_of_rdn (seen_tlv rdn.entry))) }
{
    match rdn.inside() {
        Some(attributes) => take_attributes(mail, attributes),
        None => Ok(()),
    }
}

fn take_rdns<'a>(mail: &mut Vec<Option<MailName<'a>>>, rdns: Cursor<'a>) -> Result<(), AllocError>
    ensures { OnOk result (AddsMail mail.old mail.new
        (flat_map emails_of_rdn (left rdns.entry).values)) }
{
    let mut rdns = rdns;
    while let Some(rdn) = rdns.next() {
        take_rdn(mail, rdn)?;
    }
    Ok(())
}

/// Adds what the emailAddresses of the subject say.
pub(crate) fn take_subject<'a>(
    mail: &mut Vec<Option<MailName<'a>>>,
    subject: &Name<'a>,
) -> Result<(), AllocError>
    ensures { OnOk result (AddsMail mail.old mail.new (emails_of (raw_of subject.now))) }
{
    take_rdns(mail, subject.rdns())
}
