//! The mail addresses and URIs of a certificate (RFC 5280, 4.1.2.6 and 4.2.1.6).

ghost use Rattle.std.specs.Prelude.{◌≡◌, [], OnOk, IfOk, map, filter_map, option_map};
ghost use Rattle.std.specs.List.{cons_option};
ghost use Rattle.std.specs.Option.{option_copied};
ghost use Rattle.names.specs.GeneralView.{general_name};
ghost use Rattle.names_hosts.specs.Uri.{uri_host};
ghost use Rattle.cert.specs.Certificate.{seen_certificate};
ghost use Rattle.cert_hosts.specs.Mailboxes.{AddsMail, mailbox_of, seen_mail, seen_value};
ghost use Rattle.cert_hosts.specs.OwnNames.{AddsHosts, behind_type, mail_of_form, mail_named, mail_values, name_text, seen_found, uris};

use crate::mailboxes::MailValue;
use crate::subject::take_subject;
use cert::Certificate;
use names::General;
use names_hosts::{MailName, host_of_uri};
use std::alloc::{AllocError, Global};

/// The number of the tag of otherName.
const OTHER_NAME: u8 = 0;

/// The number of the tag of rfc822Name.
const RFC822_NAME: u8 = 1;

/// The number of the tag of uniformResourceIdentifier.
const URI_NAME: u8 = 6;

/// type-id OBJECT IDENTIFIER: id-on-SmtpUTF8Mailbox, 1.3.6.1.5.5.7.8.9 (RFC 9598, 3)
const SMTP_UTF8_TYPE: &[u8] = b"\x06\x08\x2B\x06\x01\x05\x05\x07\x08\x09";

/// What stands behind the type-id of the contents of an otherName, if it is an SmtpUTF8Mailbox.
fn behind_type(contents: &[u8]) -> Option<&[u8]>
    ensures { option_copied result ≡ behind_type contents.now }
{
    contents.strip_prefix(SMTP_UTF8_TYPE)
}

/// The value of an SmtpUTF8Mailbox, if the contents of an otherName are one.
fn utf8_named(contents: &[u8]) -> Option<MailValue<'_>>
    ensures { option_map seen_value result ≡ mail_of_form 0 contents.now }
{
    match behind_type(contents) {
        Some(octets) => Some(MailValue::SmtpUtf8(octets)),
        None => None,
    }
}

/// The value that is to be a mailbox, of a name with this number of its tag, and these contents.
fn mail_of_form(number: u8, contents: &[u8]) -> Option<MailValue<'_>>
    ensures { option_map seen_value result ≡ mail_of_form number contents.now }
{
    match number {
        RFC822_NAME => Some(MailValue::Rfc822Name(contents)),
        OTHER_NAME => utf8_named(contents),
        _ => None,
    }
}

/// The same of a general name.
fn mail_named<'a>(name: &General<'a>) -> Option<MailValue<'a>>
    ensures { option_map seen_value result ≡ mail_named (general_name name.now) }
{
    match name {
        General::Other(number, contents) => mail_of_form(*number, contents),
        _ => None,
    }
}

/// Adds the mailbox, or that it is none, if the name is to be one.
fn take_name<'a>(mail: &mut Vec<Option<MailName<'a>>>, name: &General<'a>) -> Result<(), AllocError>
    ensures { OnOk result (AddsMail mail.old mail.new
        (cons_option (mail_named (general_name name.now)) [])) }
{
    if let Some(value) = mail_named(name) {
        mail.push(value.mailbox())?;
    }
    Ok(())
}

/// The same of all names.
fn take_names<'a>(
    mail: &mut Vec<Option<MailName<'a>>>,
    names: &[General<'a>],
) -> Result<(), AllocError>
    ensures { OnOk result (AddsMail mail.old mail.new
        (filter_map mail_named (map general_name names.now))) }
{
    for name in names {
        take_name(mail, name)?;
    }
    Ok(())
}

/// Of each value of the certificate that is to be a mailbox, which one it is.
pub(crate) fn mail_of<'a>(
    alloc: Global,
    certificate: &Certificate<'a>,
) -> Result<Vec<Option<MailName<'a>>>, AllocError>
    ensures { IfOk result (λ mail. seen_mail mail
        ≡ map mailbox_of (mail_values (seen_certificate certificate.now))) }
{
    let mut mail = Vec::new(alloc);
    take_subject(&mut mail, &certificate.subject)?;
    take_names(&mut mail, &certificate.extensions.alternative_names)?;
    Ok(mail)
}

/// The text of the name, if it is a URI.
fn uri_of<'a>(name: &General<'a>) -> Option<&'a [u8]>
    ensures { option_copied result ≡ name_text 6 (general_name name.now) }
{
    match name {
        General::Other(number, uri) => (*number == URI_NAME).then_some(*uri),
        _ => None,
    }
}

/// The host of a URI, told as the definition has it.
fn host_of(uri: &[u8]) -> Option<&[u8]>
    ensures { option_copied result ≡ uri_host uri.now }
{
    host_of_uri(uri)
}

/// Adds the host of the name, or that it has none, if it is a URI.
fn take_uri<'a>(hosts: &mut Vec<Option<&'a [u8]>>, name: &General<'a>) -> Result<(), AllocError>
    ensures { OnOk result (AddsHosts hosts.old hosts.new
        (cons_option (name_text 6 (general_name name.now)) [])) }
{
    if let Some(uri) = uri_of(name) {
        hosts.push(host_of(uri))?;
    }
    Ok(())
}

/// The same of all names.
fn take_uris<'a>(hosts: &mut Vec<Option<&'a [u8]>>, names: &[General<'a>]) -> Result<(), AllocError>
    ensures { OnOk result (AddsHosts hosts.old hosts.new
        (filter_map (name_text 6) (map general_name names.now))) }
{
    for name in names {
        take_uri(hosts, name)?;
    }
    Ok(())
}

/// Of each URI of the certificate its host, if it has one.
pub(crate) fn hosts_of<'a>(
    alloc: Global,
    certificate: &Certificate<'a>,
) -> Result<Vec<Option<&'a [u8]>>, AllocError>
    ensures { IfOk result (λ hosts. seen_found hosts
        ≡ map uri_host (uris (seen_certificate certificate.now))) }
{
    let mut hosts = Vec::new(alloc);
    take_uris(&mut hosts, &certificate.extensions.alternative_names)?;
    Ok(hosts)
}
