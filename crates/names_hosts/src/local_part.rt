//! Local parts of mail addresses (RFC 5321, 4.1.2): dot-strings, and quoted strings, which are compared by what they quote.

ghost use Rattle.std.specs.Prelude.{◌≡◌, [], MatchOption, option_copied, option_map};
ghost use Rattle.std.specs.List.{list_all, position};
ghost use Rattle.std.specs.Ordering.{nat_cmp};
ghost use Rattle.std.specs.Cmp.Lexicographic.{slice_cmp};
ghost use Rattle.names.specs.Dns.{is_dot};
ghost use Rattle.names_hosts.specs.LocalPart.{is_beyond_ascii, is_atom_octet, is_atom, is_dot_string, is_printing, is_quoted_octet, pair_of, are_quoted, unquoted, IsFirstOf, local_contents};

use crate::splits::between;
use crate::uris::is_one_of;
use std::cmp::Ordering;

/// The octets of atoms that are not letters or digits.
const ATOM_MARKS: &[u8] = b"!#$%&'*+-/=?^_`{|}~";

fn is_beyond_ascii(utf8: bool, octet: u8) -> bool
    ensures { result ≡ is_beyond_ascii utf8 octet }
{
    utf8 && 128 <= octet
}

fn is_atom_octet(utf8: bool, octet: u8) -> bool
    ensures { result ≡ is_atom_octet utf8 octet }
{
    octet.is_ascii_alphanumeric() || is_one_of(ATOM_MARKS, octet) || is_beyond_ascii(utf8, octet)
}

/// Whether all are octets of atoms.
fn has_atom_octets(utf8: bool, text: &[u8]) -> bool
    ensures { result ≡ list_all (is_atom_octet utf8) text.now }
{
    text.iter().all(|octet| is_atom_octet(utf8, *octet))
}

/// Whether the text is an atom: all octets are of atoms, and there is one.
fn is_atom(utf8: bool, text: &[u8]) -> bool
    ensures { result ≡ is_atom utf8 text.now }
{
    0 < text.len() && has_atom_octets(utf8, text)
}

/// The index of the first dot.
fn first_dot(text: &[u8]) -> Option<usize>
    ensures { result ≡ position is_dot text.now }
{
    text.iter().position(|octet| *octet == b'.')
}

/// Whether the text is atoms, joined by dots.
fn is_dot_string(utf8: bool, text: &[u8]) -> bool
    ensures { result ≡ is_dot_string utf8 text.now }
{
    let mut rest = text;
    while let Some(dot) = first_dot(rest) {
        let (atom, _) = rest.split_at(dot);
        if !is_atom(utf8, atom) {
            return false;
        }
        rest = rest.split_at(dot + 1).1;
    }
    is_atom(utf8, rest)
}

fn is_printing(octet: u8) -> bool
    ensures { result ≡ is_printing octet }
{
    32 <= octet && octet <= 126
}

/// Whether the octet may stand in a quoted string by itself.
fn is_quoted_octet(utf8: bool, octet: u8) -> bool
    ensures { result ≡ is_quoted_octet utf8 octet }
{
    is_printing(octet) && !(octet == b'"' || octet == b'\\') || is_beyond_ascii(utf8, octet)
}

/// What a backslash quotes, and what stands behind that.
fn pair_of(octet: u8, behind: &[u8]) -> Option<(u8, &[u8])>
    ensures { option_map (λ pair. (pair.0, pair.1.now)) result ≡ pair_of octet behind.now }
{
    match behind.split_first() {
        Some((quoted, others)) => (octet == b'\\').then_some((*quoted, others)),
        None => None,
    }
}

/// Whether the text may stand between quotes.
fn are_quoted(utf8: bool, text: &[u8]) -> bool
    ensures { result ≡ are_quoted utf8 text.now }
{
    let mut rest = text;
    while let Some((octet, behind)) = rest.split_first() {
        let (is_fit, others) = match pair_of(*octet, behind) {
            Some((quoted, others)) => (is_printing(quoted), others),
            None => (is_quoted_octet(utf8, *octet), behind),
        };
        if !is_fit {
            return false;
        }
        rest = others;
    }
    true
}

/// The contents of a local part: what stands between its quotes, or all of a dot-string.
#[tactic(auto, unfolding(crate::specs::LocalPart::local_contents))]
pub(crate) fn local_contents(utf8: bool, part: &[u8]) -> Option<&[u8]>
    ensures { option_copied result ≡ local_contents utf8 part.now }
{
    match between(part, b'"', b'"') {
        Some(quoted) => are_quoted(utf8, quoted).then_some(quoted),
        None => is_dot_string(utf8, part).then_some(part),
    }
}

/// The first octet that the contents stand for, and the contents behind it: a backslash quotes the octet behind it.
fn first_of(contents: &[u8]) -> Option<(u8, &[u8])>
    ensures { MatchOption result (contents.now ≡ [])
        (λ first. IsFirstOf contents.now first.0 first.1.now) }
{
    let (octet, behind) = contents.split_first()?;
    match pair_of(*octet, behind) {
        Some(pair) => Some(pair),
        None => Some((*octet, behind)),
    }
}

/// Compares contents of local parts by the octets that they stand for.
pub(crate) fn compare_locals(one: &[u8], other: &[u8]) -> Ordering
    ensures { result ≡ slice_cmp nat_cmp (unquoted one.now) (unquoted other.now) }
{
    let mut one = one;
    let mut other = other;
    while let Some((left, behind)) = first_of(one) {
        let Some((right, rest)) = first_of(other) else {
            return Ordering::Greater;
        };
        if left != right {
            return left.cmp(&right);
        }
        one = behind;
        other = rest;
    }
    if other.is_empty() {
        Ordering::Equal
    } else {
        Ordering::Less
    }
}
