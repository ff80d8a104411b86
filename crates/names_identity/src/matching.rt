//! Names that match an identity (RFC 9525, 6.3 to 6.5; RFC 5280, 7.5).

ghost use Rattle.std.specs.Prelude.{◌≡◌, ◌↔◌, [], ◌∷◌, IsTrue, MatchOption, map};
ghost use Rattle.names.specs.Dns.{labels};
ghost use Rattle.names.specs.GeneralView.{general_name};
ghost use Rattle.names_identity.specs.Identity.{folded, reference_identity, MatchesHost, MatchesByWildcard, MatchesMailbox, Matches, SpeaksFor, IsBehind, HasNoHost, IsOneLabel, IsCut, seen_name_list};
ghost use Rattle.names_identity.specs.Laws.{HostCaseIsIgnored, LabelsAreAsMany};

use crate::hosts::first_dot;
use crate::identity::Identity;
use names::General;

/// The number of the tag of rfc822Name.
const RFC822_NAME: u8 = 1;

/// The first label, and what stands behind its dot; `None` if it has none.
fn split_label(text: &[u8]) -> Option<(&[u8], &[u8])>
    ensures { MatchOption result (IsOneLabel text.now) (λ cut. IsCut text.now cut.0.now cut.1.now) }
{
    match first_dot(text) {
        Some(dot) => Some((&text[..dot], &text[dot + 1..])),
        None => None,
    }
}

/// Whether the name matches the host by a wildcard.
fn matches_by_wildcard(name: &[u8], host: &[u8]) -> bool
    ensures { IsTrue result ↔ MatchesByWildcard name.now host.now }
{
    match (split_label(name), split_label(host)) {
        (Some((first, rest)), Some((_, behind))) => {
            first == b"*".as_slice() && rest.eq_ignore_ascii_case(behind)
        }
        _ => false,
    }
}

/// Whether a dNSName matches the host.
fn matches_host(name: &[u8], host: &[u8]) -> bool
    ensures { IsTrue result ↔ MatchesHost name.now host.now }
{
    name.eq_ignore_ascii_case(host) || matches_by_wildcard(name, host)
}

/// What stands behind the local part and an at sign.
fn behind_local<'a>(name: &'a [u8], local: &[u8]) -> Option<&'a [u8]>
    ensures { MatchOption result (HasNoHost name.now local.now)
        (λ host. IsBehind name.now local.now host.now) }
{
    match name.strip_prefix(local) {
        Some(rest) => rest.strip_prefix(b"@"),
        None => None,
    }
}

/// Whether an rfc822Name matches the mailbox.
fn matches_mailbox(name: &[u8], local: &[u8], host: &[u8]) -> bool
    ensures { IsTrue result ↔ MatchesMailbox name.now local.now host.now }
{
    match behind_local(name, local) {
        Some(behind) => behind.eq_ignore_ascii_case(host),
        None => false,
    }
}

/// Whether the name matches the identity.
fn matches(name: &General<'_>, identity: &Identity<'_>) -> bool
    ensures { IsTrue result ↔ Matches (reference_identity identity.now) (general_name name.now) }
{
    match (identity, name) {
        (Identity::Host(host), General::Dns(name)) => matches_host(name, host),
        (Identity::Address(address), General::Ip(name)) => name == address,
        (Identity::Mailbox { local, host }, General::Other(form, name)) => {
            *form == RFC822_NAME && matches_mailbox(name, local, host)
        }
        _ => false,
    }
}

/// Whether one of the names of a certificate's subjectAltName matches the identity. A dNSName matches a host label by label without regard
/// to ASCII case, and if its first label is an asterisk alone, this stands for exactly one label; an asterisk elsewhere stands for itself.
/// An iPAddress matches the address of the same octets. An rfc822Name matches the mailbox of the same local part, octet by octet, and of
/// the same host without regard to ASCII case. Common names and emailAddress attributes of the subject are not looked at, and public
/// suffixes are not known: `*.com` matches `example.com`. Time is linear in the octets of the names, and of the identity for each name; no
/// memory is taken.
pub fn speaks_for(names: &[General<'_>], identity: &Identity<'_>) -> bool
    ensures { IsTrue result ↔ SpeaksFor (seen_name_list names.now)
        (reference_identity identity.now) }
{
    names.iter().any(|name| matches(name, identity))
}

/// A name matches hosts without regard to ASCII case, and of as many labels as it has.
pub fn matching_laws()
    ensures case { HostCaseIsIgnored }
    ensures labels { LabelsAreAsMany }
{}
