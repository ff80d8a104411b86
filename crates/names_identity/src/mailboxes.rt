//! Mailboxes (RFC 5280, 4.2.1.6; RFC 5321, 4.1.2).

ghost use Rattle.std.specs.Prelude.{◌≡◌, ◌+◌, ◌<◌, IfOk, IfErr, IsOk, ℕ, List, length};
ghost use Rattle.std.specs.List.{position};
ghost use Rattle.names_identity.specs.Mailbox.{is_local_octet, not_local_octet, IsDivided, IsDivisionFault};

use crate::fault::{IdentityFault, IdentityRule};

fn is_local_octet(octet: u8) -> bool
    ensures { result ≡ is_local_octet octet }
{
    octet.is_ascii_graphic() && !matches!(octet, b'"' | b'@')
}

/// The index of the first octet that no local part has.
fn first_other(text: &[u8]) -> Option<usize>
    ensures { result ≡ position not_local_octet text.now }
{
    text.iter().position(|octet| !is_local_octet(*octet))
}

/// The local part of a mailbox, and what stands behind its at sign.
pub(crate) fn divide(text: &[u8]) -> Result<(&[u8], &[u8]), IdentityFault>
    ensures divides { IfOk result (λ parts. IsDivided text.now parts.0.now parts.1.now) }
    ensures accepts { (local host : List ℕ) → IsDivided text.now local host → IsOk result }
    ensures refuses { IfErr result (λ fault. IsDivisionFault text.now fault.rule fault.at) }
{
    let Some(at) = first_other(text) else {
        return Err(IdentityFault {
            rule: IdentityRule::NoHost,
            at: text.len(),
        });
    };
    if at == 0 || text[at] != b'@' {
        return Err(IdentityFault {
            rule: IdentityRule::LocalPart,
            at,
        });
    }
    Ok((&text[..at], &text[at + 1..]))
}
