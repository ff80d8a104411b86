//! Certificates with mail addresses and with extensions that the notation of `vectors` does not have.

use crate::asking::RowFault;
use der_tree::{Tree, encode, parse_tree};
use std::alloc::{AllocError, Global};
use vectors::{primitive, sign, tree_of};

/// The contents of emailAddress (RFC 5280, 4.1.2.6), 1.2.840.113549.1.9.1.
const EMAIL_ADDRESS: &[u8] = b"\x2A\x86\x48\x86\xF7\x0D\x01\x09\x01";

/// That of subjectAltName (4.2.1.6), 2.5.29.17.
const ALTERNATIVE_NAMES: &[u8] = b"\x55\x1D\x11";

/// That of SmtpUTF8Mailbox (RFC 9598, 3), 1.3.6.1.5.5.7.8.9.
const SMTP_UTF8_MAILBOX: &[u8] = b"\x2B\x06\x01\x05\x05\x07\x08\x09";

/// Where the subject stands in the signed part: behind version, serialNumber, signature, issuer and validity.
const SUBJECT: usize = 5;

/// Puts the tag of rfc822Name in place of that of dNSName, which stands for nothing else in a value of fewer than 256 octets.
fn retag_octets(value: &mut Tree) {
    if let Tree::Primitive(_, octets) = value {
        for octet in octets.iter_mut() {
            if *octet == 0x82 {
                *octet = 0x81;
            }
        }
    }
}

/// The same in the value of an extension, its last member.
fn retag_value(extension: &mut Tree) {
    if let Tree::Constructed(_, members) = extension {
        if let Some(value) = members.last_mut() {
            retag_octets(value);
        }
    }
}

fn retag_list(list: &mut Tree) {
    if let Tree::Constructed(_, extensions) = list {
        for extension in extensions.iter_mut() {
            retag_value(extension);
        }
    }
}

fn retag_extensions(tagged: &mut Tree) {
    if let Tree::Constructed(_, lists) = tagged {
        for list in lists.iter_mut() {
            retag_list(list);
        }
    }
}

/// The same in all extensions of a signed part, whose last member these are.
fn retag(members: &mut Vec<Tree>) {
    if let Some(last) = members.last_mut() {
        retag_extensions(last);
    }
}

/// An address, and the identifier of the string that it is.
#[derive(Clone, Copy)]
struct Address<'t> {
    identifier: u8,
    text: &'t str,
}

/// The words before the emailAddress of a subject, and before an SmtpUTF8Mailbox, with the identifiers of their strings.
const EMAILS: &[(&str, u8)] = &[("{email ", 0x16), ("{t61 ", 0x14), ("{bmp ", 0x1E)];

const MAILBOXES: &[(&str, u8)] = &[("{smtp ", 0x0C), ("{smtp-ia5 ", 0x16)];

/// The word before the encoding of a list of extensions, in hexadecimal.
const EXTENSIONS: &[(&str, u8)] = &[("{extensions ", 0x30)];

/// The name of one emailAddress.
fn email_name(alloc: Global, address: Address<'_>) -> Result<Tree, AllocError> {
    let kind = primitive(alloc, 0x06, EMAIL_ADDRESS)?;
    let value = primitive(alloc, address.identifier, address.text.as_bytes())?;
    let attribute = Tree::Constructed(0x30, vec![in alloc; kind, value]?);
    let rdn = Tree::Constructed(0x31, vec![in alloc; attribute]?);
    Ok(Tree::Constructed(0x30, vec![in alloc; rdn]?))
}

/// The otherName of an SmtpUTF8Mailbox (RFC 9598, 3).
fn other_name(alloc: Global, address: Address<'_>) -> Result<Tree, AllocError> {
    let kind = primitive(alloc, 0x06, SMTP_UTF8_MAILBOX)?;
    let string = primitive(alloc, address.identifier, address.text.as_bytes())?;
    let value = Tree::Constructed(0xA0, vec![in alloc; string]?);
    Ok(Tree::Constructed(0xA0, vec![in alloc; kind, value]?))
}

/// The list of a subjectAltName of that name alone, and no other extension.
fn alternative_name(alloc: Global, address: Address<'_>) -> Result<Tree, RowFault> {
    let name = other_name(alloc, address)?;
    let names = Tree::Constructed(0x30, vec![in alloc; name]?);
    let kind = primitive(alloc, 0x06, ALTERNATIVE_NAMES)?;
    let value = Tree::Primitive(0x04, encode(alloc, &names)?);
    let extension = Tree::Constructed(0x30, vec![in alloc; kind, value]?);
    Ok(Tree::Constructed(0x30, vec![in alloc; extension]?))
}

/// The list whose encoding this is.
fn extensions_in(alloc: Global, text: &str) -> Result<Tree, RowFault> {
    let octets = hex::decode(alloc, text).map_err(|_| RowFault::Word)?;
    parse_tree(alloc, &octets).map_err(|_| RowFault::Word)
}

fn up_to(text: &str, mark: char) -> &str {
    text.split_once(mark).map_or(text, |(front, _)| front)
}

/// The key that signs: that of the option `signed`, or the issuer's.
fn signer_of(text: &str) -> &str {
    match text.split_once("{signed ") {
        Some((_, behind)) => up_to(behind, '}'),
        None => {
            let (_, behind) = text.split_once(',').unwrap_or(("", ""));
            up_to(behind, ')')
        }
    }
}

/// The members of the signed part of the certificate, which has rfc822Names where the text has `mail`.
fn members_of(alloc: Global, text: &str) -> Result<Vec<Tree>, RowFault> {
    let plain = text.replace(alloc, "mail ", "dns ")?;
    let Tree::Constructed(_, parts) = tree_of(alloc, &plain)? else {
        return Err(RowFault::Word);
    };
    let mut parts = parts;
    if parts.is_empty() {
        return Err(RowFault::Word);
    }
    let Tree::Constructed(_, members) = parts.remove(0) else {
        return Err(RowFault::Word);
    };
    let mut members = members;
    if text.contains("mail ") {
        retag(&mut members);
    }
    Ok(members)
}

/// The certificate that the text asks for, whose subject is this emailAddress, if there is one, with this list of extensions, if there is one.
fn built(
    alloc: Global,
    text: &str,
    email: Option<Address<'_>>,
    extensions: Option<Tree>,
) -> Result<Vec<u8>, RowFault> {
    let mut members = members_of(alloc, text)?;
    if let (Some(address), Some(subject)) = (email, members.get_mut(SUBJECT)) {
        *subject = email_name(alloc, address)?;
    }
    if let Some(list) = extensions {
        members.push(Tree::Constructed(0xA3, vec![in alloc; list]?))?;
    }
    let signed = Tree::Constructed(0x30, members);
    let tree = sign(alloc, signed, signer_of(text))?;
    Ok(encode(alloc, &tree)?)
}

/// What stands before an option, its address, and what stands behind it.
fn option_of<'t>(text: &'t str, words: &[(&str, u8)]) -> Option<(&'t str, Address<'t>, &'t str)> {
    for (word, identifier) in words {
        if let Some((front, rest)) = text.split_once(*word) {
            let (value, behind) = rest.split_once('}').unwrap_or((rest, ""));
            let address = Address {
                identifier: *identifier,
                text: value,
            };
            return Some((front, address, behind));
        }
    }
    None
}

fn without_mailbox(
    alloc: Global,
    text: &str,
    email: Option<Address<'_>>,
) -> Result<Vec<u8>, RowFault> {
    match option_of(text, EXTENSIONS) {
        None => built(alloc, text, email, None),
        Some((front, list, behind)) => {
            let plain = format!(in alloc; "{front}{behind}")?;
            let extensions = extensions_in(alloc, list.text)?;
            built(alloc, &plain, email, Some(extensions))
        }
    }
}

fn without_email(
    alloc: Global,
    text: &str,
    email: Option<Address<'_>>,
) -> Result<Vec<u8>, RowFault> {
    match option_of(text, MAILBOXES) {
        None => without_mailbox(alloc, text, email),
        Some((front, address, behind)) => {
            let plain = format!(in alloc; "{front}{behind}")?;
            let extensions = alternative_name(alloc, address)?;
            built(alloc, &plain, email, Some(extensions))
        }
    }
}

/// The DER of a certificate in the notation of `vectors`, and more: `mail V`, which may stand where `dns V` may, is an rfc822Name or a base
/// on these, in a text without `dns`; with the option `{email V}` the subject is this emailAddress alone, with `{t61 V}` and `{bmp V}` one
/// in a T61String and a BMPString; `{smtp V}`, in a text without other extensions, is an SmtpUTF8Mailbox, with `{smtp-ia5 V}` one that
/// is an IA5String; and with `{extensions HEX}`, in a text without others, the extensions are the list that is so encoded.
pub fn certificate(alloc: Global, text: &str) -> Result<Vec<u8>, RowFault> {
    match option_of(text, EMAILS) {
        None => without_email(alloc, text, None),
        Some((front, address, behind)) => {
            let plain = format!(in alloc; "{front}{behind}")?;
            without_email(alloc, &plain, Some(address))
        }
    }
}
