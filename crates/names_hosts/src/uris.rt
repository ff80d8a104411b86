//! The host of a URI (RFC 3986, 3.1 and 3.2), to which constraints on URIs apply (RFC 5280, 4.2.1.10).

ghost use Rattle.std.specs.Prelude.{◌≡◌, ◌↔◌, ◌∷◌, [], ℕ, List, IsTrue, IfSome, Some, option_copied};
ghost use Rattle.std.specs.List.{list_all, position};
ghost use Rattle.std.specs.Char.{is_ascii_digit};
ghost use Rattle.names_hosts.specs.Uri.{is_one_of, HasNone, IsCut, is_scheme_octet, IsScheme, HasAuthority, is_user_octet, IsBehindScheme, IsBehindUser, IsPortPart, is_hex_label, has_last_label, IsFullyQualified, IsHostAndPort, IsHostOfAuthority, IsHostOfUri, IsUriAmong, IsUriClearOf};
ghost use Rattle.names_hosts.specs.Hosts.{host_names};
ghost use Rattle.names_hosts.specs.Splits.{last_split};
ghost use Rattle.names_hosts.specs.Laws.{UriHostIsOne, UriHostIsExact};

use crate::hosts::{HostBase, is_host};
use crate::splits::last_split;

/// What ends an authority.
const AUTHORITY_ENDS: &[u8] = b"/?#";

/// The octets of userinfo that are not letters or digits.
const USER_MARKS: &[u8] = b"!$%&'()*+,-.:;=_~";

pub(crate) fn is_one_of(ends: &[u8], octet: u8) -> bool
    ensures { result ≡ is_one_of ends.now octet }
{
    ends.contains(&octet)
}

/// The index of the first octet that is one of these.
fn first_of(text: &[u8], ends: &[u8]) -> Option<usize>
    ensures { result ≡ position (is_one_of ends.now) text.now }
{
    text.iter().position(|octet| is_one_of(ends, *octet))
}

/// The text up to the first octet that is one of these, and the rest.
fn cut<'a>(text: &'a [u8], ends: &[u8]) -> (&'a [u8], &'a [u8])
    ensures { IsCut ends.now text.now result.0.now result.1.now }
{
    match first_of(text, ends) {
        Some(at) => text.split_at(at),
        None => text.split_at(text.len()),
    }
}

fn is_scheme_octet(octet: u8) -> bool
    ensures { result ≡ is_scheme_octet octet }
{
    octet.is_ascii_alphanumeric() || matches!(octet, b'+' | b'-' | b'.')
}

/// Whether all are octets of schemes.
fn has_scheme_octets(rest: &[u8]) -> bool
    ensures { result ≡ list_all is_scheme_octet rest.now }
{
    rest.iter().all(|octet| is_scheme_octet(*octet))
}

fn is_scheme(text: &[u8]) -> bool
    ensures { IsTrue result ↔ IsScheme text.now }
{
    match text.split_first() {
        Some((first, rest)) => first.is_ascii_alphabetic() && has_scheme_octets(rest),
        None => false,
    }
}

fn is_user_octet(octet: u8) -> bool
    ensures { result ≡ is_user_octet octet }
{
    octet.is_ascii_alphanumeric() || is_one_of(USER_MARKS, octet)
}

/// Whether all are octets of userinfo.
fn has_user_octets(text: &[u8]) -> bool
    ensures { result ≡ list_all is_user_octet text.now }
{
    text.iter().all(|octet| is_user_octet(*octet))
}

/// Whether all are digits.
fn has_digits(text: &[u8]) -> bool
    ensures { result ≡ list_all is_ascii_digit text.now }
{
    text.iter().all(|octet| octet.is_ascii_digit())
}

/// Whether the text is nothing, or a colon and digits.
fn is_port(text: &[u8]) -> bool
    ensures { IsTrue result ↔ IsPortPart text.now }
{
    match text.split_first() {
        None => true,
        Some((colon, digits)) => *colon == b':' && has_digits(digits),
    }
}

/// What stands behind the scheme, a colon and two slashes.
fn behind_scheme(uri: &[u8]) -> Option<&[u8]>
    ensures reads { IfSome result (λ rest. IsBehindScheme uri.now rest.now) }
    ensures accepts { (rest : List ℕ) → IsBehindScheme uri.now rest
        → option_copied result ≡ Some rest }
{
    let (scheme, rest) = cut(uri, b":");
    if !is_scheme(scheme) {
        return None;
    }
    rest.strip_prefix(b"://")
}

/// The authority of a URI.
fn authority_of(uri: &[u8]) -> Option<&[u8]>
    ensures reads { IfSome result (λ authority. HasAuthority uri.now authority.now) }
    ensures accepts { (authority : List ℕ) → HasAuthority uri.now authority
        → option_copied result ≡ Some authority }
{
    match behind_scheme(uri) {
        Some(rest) => Some(cut(rest, AUTHORITY_ENDS).0),
        None => None,
    }
}

/// What stands behind userinfo and an at sign, if there are such; else all.
fn behind_user(authority: &[u8]) -> Option<&[u8]>
    ensures reads { IfSome result (λ rest. IsBehindUser authority.now rest.now) }
    ensures accepts { (rest : List ℕ) → HasNone (64 ∷ []) rest → IsBehindUser authority.now rest
        → option_copied result ≡ Some rest }
{
    let (user, more) = cut(authority, b"@");
    match more.split_first() {
        None => Some(authority),
        Some((_, rest)) => has_user_octets(user).then_some(rest),
    }
}

/// Whether the label begins with 0x, as a number does.
fn is_hex_label(label: &[u8]) -> bool
    ensures { result ≡ is_hex_label label.now }
{
    match label {
        [zero, letter, ..] => *zero == b'0' && (*letter == b'x' || *letter == b'X'),
        _ => false,
    }
}

/// Whether the text has two labels at least, and the last does not begin as a number does.
fn has_last_label(text: &[u8]) -> bool
    ensures { result ≡ has_last_label (last_split 46 text.now) }
{
    match last_split(text, b'.') {
        Some((_, label)) => !is_hex_label(label),
        None => false,
    }
}

/// Whether the text is a fully qualified domain name.
fn is_fully_qualified(text: &[u8]) -> bool
    ensures { IsTrue result ↔ IsFullyQualified text.now }
{
    is_host(text) && has_last_label(text)
}

/// The host before a port.
fn before_port(rest: &[u8]) -> Option<&[u8]>
    ensures reads { IfSome result (λ host. IsHostAndPort rest.now host.now) }
    ensures accepts { (host : List ℕ) → IsHostAndPort rest.now host
        → option_copied result ≡ Some host }
{
    let (host, port) = cut(rest, b":");
    if !is_port(port) {
        return None;
    }
    is_fully_qualified(host).then_some(host)
}

/// The host of an authority.
fn host_of(authority: &[u8]) -> Option<&[u8]>
    ensures reads { IfSome result (λ host. IsHostOfAuthority authority.now host.now) }
    ensures accepts { (host : List ℕ) → IsHostOfAuthority authority.now host
        → option_copied result ≡ Some host }
{
    match behind_user(authority) {
        Some(rest) => before_port(rest),
        None => None,
    }
}

/// The host of a URI that a uniformResourceIdentifier holds. `None` if the URI has no authority, or one whose host is no fully qualified
/// domain name, as an IP address or a single label: no constraint permits such a URI, and none that excludes URIs is clear of it. What stands
/// behind the authority is not looked at. Time is linear.
pub fn host_of_uri(uri: &[u8]) -> Option<&[u8]>
    ensures reads { IfSome result (λ host. IsHostOfUri uri.now host.now) }
    ensures accepts { (host : List ℕ) → IsHostOfUri uri.now host
        → option_copied result ≡ Some host }
{
    match authority_of(uri) {
        Some(authority) => host_of(authority),
        None => None,
    }
}

impl HostBase<'_> {
    /// Whether the URI has a host that is fully qualified, and that is one of these.
    pub fn covers_uri(&self, uri: &[u8]) -> bool
        ensures decides { IsTrue result ↔ IsUriAmong uri.now (host_names self.now) }
    {
        match host_of_uri(uri) {
            Some(host) => self.covers(host),
            None => false,
        }
    }

    /// Whether the URI has a host that is fully qualified, and that is none of these. A URI without one is not clear of them.
    pub fn is_clear_of_uri(&self, uri: &[u8]) -> bool
        ensures decides { IsTrue result ↔ IsUriClearOf uri.now (host_names self.now) }
    {
        match host_of_uri(uri) {
            Some(host) => !self.covers(host),
            None => false,
        }
    }
}

/// A URI has one host, and the definition `uri_host` gives just that one.
pub fn uri_laws()
    ensures one { UriHostIsOne }
    ensures exact { UriHostIsExact }
{}
