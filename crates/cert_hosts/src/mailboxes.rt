//! The mailboxes that values of a certificate are.

ghost use Rattle.std.specs.Prelude.{◌≡◌, option_map, false};
ghost use Rattle.asn.specs.Reading.{seen_tlv, Gives};
ghost use Rattle.asn.specs.Outermost.{outermost};
ghost use Rattle.cert.specs.Fault.{as_der};
ghost use Rattle.names_hosts.specs.Mail.{mail_text};
ghost use Rattle.cert_hosts.specs.Mailboxes.{email_address, smtp_utf8, mailbox_of, seen_value, utf8_value};

use asn::{Tlv, UTF8_STRING};
use cert::{CertRefusal, CertRule};
use names::is_text;
use names_hosts::MailName;

/// A value that is to be a mailbox.
#[derive(Clone, Copy)]
pub(crate) enum MailValue<'a> {
    /// The value of an emailAddress: its identifier octet, and its contents.
    EmailAddress(u8, &'a [u8]),
    /// The contents of an rfc822Name.
    Rfc822Name(&'a [u8]),
    /// Of an otherName that is an SmtpUTF8Mailbox, the octets behind its type-id.
    SmtpUtf8(&'a [u8]),
}

/// The value that the octets are the encoding of.
fn outermost(octets: &[u8]) -> Result<Tlv<'_>, CertRefusal>
    ensures { Gives seen_tlv result (as_der (outermost octets.now)) }
{
    match Tlv::outermost(octets) {
        Ok(value) => Ok(value),
        Err((rule, at)) => Err((CertRule::Der(rule), at)),
    }
}

/// value [0] EXPLICIT SmtpUTF8Mailbox, SmtpUTF8Mailbox ::= UTF8String (RFC 9598, 3)
#[tactic(auto, unfolding(crate::specs::Mailboxes::utf8_value))]
fn read_utf8_value(octets: &[u8]) -> Result<Tlv<'_>, CertRefusal>
    ensures { Gives seen_tlv result (utf8_value octets.now) }
{
    let explicit = outermost(octets)?;
    explicit.is_a(0xA0, CertRule::ExtensionValue)?;
    let mut members = explicit.members();
    let string = members.required(UTF8_STRING, CertRule::ExtensionValue)?;
    members.ended(CertRule::ExtensionValue)?;
    Ok(string)
}

/// The mailbox that the octets behind the type-id of an SmtpUTF8Mailbox are.
fn utf8_mailbox(octets: &[u8]) -> Option<MailName<'_>>
    ensures { option_map mail_text result ≡ mailbox_of (smtp_utf8 octets.now) }
{
    match read_utf8_value(octets) {
        Ok(string) => MailName::read_utf8(string.body),
        Err(_) => None,
    }
}

/// The mailbox that the value of an emailAddress is, an IA5String, a UTF8String or a PrintableString.
fn email_mailbox(identifier: u8, contents: &[u8]) -> Option<MailName<'_>>
    ensures { option_map mail_text result ≡ mailbox_of (email_address identifier contents.now) }
{
    if is_text(identifier) {
        MailName::read(contents)
    } else {
        None
    }
}

impl<'a> MailValue<'a> {
    /// The mailbox that it is, if it is one of the form that is processed.
    pub(crate) fn mailbox(&self) -> Option<MailName<'a>>
        ensures { option_map mail_text result ≡ mailbox_of (seen_value self.now) }
    {
        match *self {
            MailValue::EmailAddress(identifier, contents) => email_mailbox(identifier, contents),
            MailValue::Rfc822Name(contents) => MailName::read(contents),
            MailValue::SmtpUtf8(octets) => utf8_mailbox(octets),
        }
    }
}
