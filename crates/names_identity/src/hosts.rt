//! Hosts by their DNS names (RFC 9525, 2 and 6.3).

ghost use Rattle.std.specs.Prelude.{◌≡◌, ◌≤◌, ◌↔◌, IsOk, IfOk, IfErr, length};
ghost use Rattle.std.specs.List.{list_all, position};
ghost use Rattle.std.specs.Char.{is_ascii_digit};
ghost use Rattle.names.specs.Dns.{is_dot, is_label_length};
ghost use Rattle.names_identity.specs.Host.{is_host_octet, not_host_octet, HasLabelLength, IsHost, IsHostFault, IsFirstBadLabelAt, IsLastLabelAt, without_final_dot};

use crate::fault::{IdentityFault, IdentityRule};

/// The most octets of a host.
const MAX_HOST_LEN: usize = 253;

fn is_host_octet(octet: u8) -> bool
    ensures { result ≡ is_host_octet octet }
{
    octet.is_ascii_alphanumeric() || matches!(octet, b'-' | b'.' | b'_')
}

/// The index of the first octet that no host has.
fn first_other(text: &[u8]) -> Option<usize>
    ensures { result ≡ position not_host_octet text.now }
{
    text.iter().position(|octet| !is_host_octet(*octet))
}

/// The index of the first dot.
pub(crate) fn first_dot(text: &[u8]) -> Option<usize>
    ensures { result ≡ position is_dot text.now }
{
    text.iter().position(|octet| *octet == b'.')
}

/// Whether a label may have so many octets.
fn is_label_length(count: usize) -> bool
    ensures { result ≡ is_label_length count }
{
    0 < count && count <= 63
}

/// Whether the label is digits alone.
fn is_number(label: &[u8]) -> bool
    ensures { result ≡ list_all is_ascii_digit label.now }
{
    label.iter().all(|octet| octet.is_ascii_digit())
}

/// The last label and where it begins, if all labels have lengths of labels; else where the first begins that has not.
fn last_label(text: &[u8]) -> Result<(usize, &[u8]), usize>
    ensures last { IfOk result (λ last. IsLastLabelAt text.now last.0 last.1.now) }
    ensures refuses { IfErr result (IsFirstBadLabelAt text.now) }
    ensures bound { IfErr result (λ at. at ≤ length text.now) }
    ensures bound_of_last { IfOk result (λ last. last.0 ≤ length text.now) }
{
    let mut begin = 0;
    let mut rest = text;
    while let Some(dot) = first_dot(rest) {
        if !is_label_length(dot) {
            return Err(begin);
        }
        begin += dot + 1;
        rest = rest.split_at(dot + 1).1;
    }
    if is_label_length(rest.len()) {
        Ok((begin, rest))
    } else {
        Err(begin)
    }
}

/// Whether the text is a host.
pub(crate) fn check_host(text: &[u8]) -> Result<(), IdentityFault>
    ensures accepts { IsHost text.now ↔ IsOk result }
    ensures refuses { IfErr result (λ fault. IsHostFault text.now fault.rule fault.at) }
    ensures bound { IfErr result (λ fault. fault.at ≤ length text.now) }
{
    if let Some(at) = first_other(text) {
        return Err(IdentityFault {
            rule: IdentityRule::HostOctet,
            at,
        });
    }
    let (at, label) = match last_label(text) {
        Ok(last) => last,
        Err(at) => return Err(IdentityFault {
            rule: IdentityRule::Label,
            at,
        }),
    };
    if text.len() > MAX_HOST_LEN {
        return Err(IdentityFault {
            rule: IdentityRule::Length,
            at: 0,
        });
    }
    if is_number(label) {
        return Err(IdentityFault {
            rule: IdentityRule::Number,
            at,
        });
    }
    Ok(())
}

/// The text without one dot at its end.
#[tactic(auto, unfolding(crate::specs::Host::without_final_dot))]
pub(crate) fn without_final_dot(text: &[u8]) -> &[u8]
    ensures { result.now ≡ without_final_dot text.now }
{
    match text.split_last() {
        Some((b'.', host)) => host,
        _ => text,
    }
}
