//! Mail addresses, and the bases of constraints on them (RFC 5280, 4.2.1.10 and 7.5).

ghost use Rattle.std.specs.Prelude.{◌≡◌, ◌↔◌, ◌||◌, true, false, IsTrue, IfSome, Some, option_map};
ghost use Rattle.std.specs.List.{list_all};
ghost use Rattle.names_hosts.specs.Hosts.{is_host};
ghost use Rattle.names_hosts.specs.Mail.{MailText, mail_text, is_literal_octet, is_address_literal, mail_of, IsMailName, MailNames, mail_names, IsMailOf, IsSameMailbox, IsAmongMail, IsMailInside};
ghost use Rattle.names_hosts.specs.Laws.{MailNameIsOne, MailBaseIsOne, MailInsideIsExact, SharedMailIsNested, MailNameIsExact, MailBaseIsExact, LiteralsAreAtNoHosts};

use crate::hosts::{HostBase, is_host, is_same_host};
use crate::local_part::{compare_locals, local_contents};
use crate::splits::{between, last_split};

/// A mail address, as an rfc822Name or an SmtpUTF8Mailbox holds it.
#[derive(Clone, Copy)]
pub struct MailName<'a> {
    /// What stands before the at sign, without quotes round it. In it a backslash quotes the octet behind it, and stands for none itself: so
    /// local parts are compared by `is_same`.
    pub local: &'a [u8],
    /// What stands behind the at sign: a host, or an address literal in brackets.
    pub host: &'a [u8],
}

/// The base of a constraint on mail addresses that was read.
#[derive(Clone, Copy)]
pub enum MailBase<'a> {
    /// This mailbox alone.
    Mailbox(MailName<'a>),
    /// All mail addresses at these hosts.
    Hosts(HostBase<'a>),
}

/// Whether the text is an address literal: letters, digits, dots and colons in brackets.
#[tactic(auto, unfolding(crate::specs::Mail::is_address_literal))]
fn is_address_literal(text: &[u8]) -> bool
    ensures { result ≡ is_address_literal text.now }
{
    match between(text, b'[', b']') {
        Some(inside) => 0 < inside.len() && has_literal_octets(inside),
        None => false,
    }
}

fn is_literal_octet(octet: u8) -> bool
    ensures { result ≡ is_literal_octet octet }
{
    octet.is_ascii_alphanumeric() || octet == b'.' || octet == b':'
}

/// Whether all are octets of address literals.
fn has_literal_octets(text: &[u8]) -> bool
    ensures { result ≡ list_all is_literal_octet text.now }
{
    text.iter().all(|octet| is_literal_octet(*octet))
}

/// Whether the text is a host or an address literal.
fn is_mail_host(text: &[u8]) -> bool
    ensures { result ≡ (is_host text.now || is_address_literal text.now) }
{
    is_host(text) || is_address_literal(text)
}

/// The mail address that the text is; where `utf8`, its local part may have octets beyond ASCII.
#[tactic(auto, unfolding(crate::specs::Mail::mail_of))]
fn read_mailbox(utf8: bool, text: &[u8]) -> Option<MailName<'_>>
    ensures { option_map mail_text result ≡ mail_of utf8 text.now }
{
    let (part, host) = last_split(text, b'@')?;
    let local = local_contents(utf8, part)?;
    is_mail_host(host).then_some(MailName { local, host })
}

impl<'a> MailName<'a> {
    /// Reads a mail address: a local part, which is a dot-string or a quoted string, an at sign, and a host without a dot at its end or an
    /// address literal; `None` for other octets. Time is linear.
    pub fn read(text: &'a [u8]) -> Option<MailName<'a>>
        ensures reads { IfSome result (λ name. IsMailName false text.now (mail_text name)) }
        ensures accepts { (name : MailText) → IsMailName false text.now name
            → option_map mail_text result ≡ Some name }
        ensures test { option_map mail_text result ≡ mail_of false text.now }
    {
        read_mailbox(false, text)
    }

    /// Reads a mail address whose local part may have octets of UTF-8 beyond ASCII, as of an SmtpUTF8Mailbox. Whether they are well formed
    /// is not looked at.
    pub fn read_utf8(text: &'a [u8]) -> Option<MailName<'a>>
        ensures reads { IfSome result (λ name. IsMailName true text.now (mail_text name)) }
        ensures accepts { (name : MailText) → IsMailName true text.now name
            → option_map mail_text result ≡ Some name }
        ensures test { option_map mail_text result ≡ mail_of true text.now }
    {
        read_mailbox(true, text)
    }
}

impl MailName<'_> {
    /// Whether both are of one local part, by what it quotes, and of one host or address literal, without regard to ASCII case.
    pub fn is_same(&self, other: &MailName<'_>) -> bool
        ensures decides { IsTrue result
            ↔ IsSameMailbox (mail_text self.now) (mail_text other.now) }
    {
        compare_locals(self.local, other.local).is_eq() && is_same_host(self.host, other.host)
    }
}

impl<'a> MailBase<'a> {
    /// Reads a base: a mail address of ASCII, a host, or a dot and a host; `None` for other octets.
    pub fn read(base: &'a [u8]) -> Option<MailBase<'a>>
        ensures reads { IfSome result (λ found. IsMailOf base.now (mail_names found)) }
        ensures accepts { (names : MailNames) → IsMailOf base.now names
            → option_map mail_names result ≡ Some names }
    {
        match MailName::read(base) {
            Some(name) => Some(MailBase::Mailbox(name)),
            None => match HostBase::read(base) {
                Some(hosts) => Some(MailBase::Hosts(hosts)),
                None => None,
            },
        }
    }
}

impl MailBase<'_> {
    /// Whether the mail address is one of these.
    pub fn covers(&self, name: &MailName<'_>) -> bool
        ensures decides { IsTrue result ↔ IsAmongMail (mail_text name.now) (mail_names self.now) }
    {
        match self {
            MailBase::Mailbox(mailbox) => name.is_same(mailbox),
            MailBase::Hosts(hosts) => hosts.covers(name.host),
        }
    }

    /// Whether each of these is one of the others.
    pub fn inside(&self, other: &MailBase<'_>) -> bool
        ensures decides { IsTrue result
            ↔ IsMailInside (mail_names self.now) (mail_names other.now) }
    {
        match (self, other) {
            (MailBase::Mailbox(inner), MailBase::Mailbox(outer)) => inner.is_same(outer),
            (MailBase::Mailbox(inner), MailBase::Hosts(outer)) => outer.covers(inner.host),
            (MailBase::Hosts(_), MailBase::Mailbox(_)) => false,
            (MailBase::Hosts(inner), MailBase::Hosts(outer)) => inner.inside(outer),
        }
    }
}

/// A text is one mail address, and a base says one thing; `inside` is exact; and two bases that share a mail address are nested. The
/// definitions `mail_of` and `mail_base_of` give just what `IsMailName` and `IsMailOf` say. An address literal is at none of the hosts of a base.
pub fn mail_laws()
    ensures name { MailNameIsOne }
    ensures base { MailBaseIsOne }
    ensures inside { MailInsideIsExact }
    ensures nested { SharedMailIsNested }
    ensures exact_name { MailNameIsExact }
    ensures exact_base { MailBaseIsExact }
    ensures literals { LiteralsAreAtNoHosts }
{}
