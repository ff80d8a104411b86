//! Reference identities (RFC 9525, 6.1.2).

ghost use Rattle.std.specs.Prelude.{◌≡◌, ◌↔◌, IsOk, IfOk, IfErr, ℕ, List, length};
ghost use Rattle.names.specs.Ip.{IsIpAddress};
ghost use Rattle.names_identity.specs.Host.{IsHost, without_final_dot};
ghost use Rattle.names_identity.specs.Identity.{reference_identity};
ghost use Rattle.names_identity.specs.Reading.{IsHostOf, IsRefusedHost, IsAddressOf, IsAddressFault, IsMailboxOf};
ghost use Rattle.names_identity.specs.Mailbox.{IsMailbox, IsMailboxFault};

use crate::fault::{IdentityFault, IdentityRule};
use crate::hosts::{check_host, without_final_dot};
use crate::mailboxes::divide;
use names::is_ip_address;

/// Whom a relying party means to speak to. The readers make only hosts, addresses and mailboxes; what is made otherwise is matched alike,
/// whatever its octets are.
#[derive(Clone, Copy)]
pub enum Identity<'a> {
    /// A host by its DNS name.
    Host(&'a [u8]),
    /// An IP address of 4 or 16 octets.
    Address(&'a [u8]),
    /// A mailbox.
    Mailbox {
        /// What stands before the at sign.
        local: &'a [u8],
        /// What stands behind it.
        host: &'a [u8],
    },
}

impl<'a> Identity<'a> {
    /// Reads a host: labels of 1 to 63 letters, digits, hyphens and underscores, joined by dots, 253 octets at most. One dot at the end is
    /// dropped. Names of other letters are handed in as A-labels (RFC 5890). A last label of digits alone is refused, since an address is
    /// no DNS name, and so is a wildcard.
    pub fn host(text: &'a [u8]) -> Result<Identity<'a>, IdentityFault>
        ensures reads { IfOk result (λ found. IsHostOf text.now (reference_identity found)) }
        ensures accepts { IsHost (without_final_dot text.now) ↔ IsOk result }
        ensures refuses { IfErr result (λ fault. IsRefusedHost text.now fault.rule fault.at) }
    {
        let host = without_final_dot(text);
        match check_host(host) {
            Ok(()) => Ok(Identity::Host(host)),
            Err(fault) => Err(fault),
        }
    }

    /// Reads an IP address: 4 or 16 octets. One of version 4 in the form of version 6 is another one.
    pub fn address(octets: &'a [u8]) -> Result<Identity<'a>, IdentityFault>
        ensures reads { IfOk result (λ found. IsAddressOf octets.now (reference_identity found)) }
        ensures accepts { IsIpAddress octets.now ↔ IsOk result }
        ensures refuses { IfErr result (λ fault. IsAddressFault octets.now fault.rule fault.at) }
    {
        if is_ip_address(octets) {
            Ok(Identity::Address(octets))
        } else {
            Err(IdentityFault {
                rule: IdentityRule::Address,
                at: 0,
            })
        }
    }

    /// Reads a mailbox: a local part, an at sign, and a host without a dot at its end. The local part is ASCII that prints, and quoted
    /// local parts are refused: it has neither a quote nor an at sign.
    pub fn mailbox(text: &'a [u8]) -> Result<Identity<'a>, IdentityFault>
        ensures reads { IfOk result (λ found. IsMailboxOf text.now (reference_identity found)) }
        ensures accepts { (local host : List ℕ) → IsMailbox text.now local host → IsOk result }
        ensures refuses { IfErr result (λ fault. IsMailboxFault text.now fault.rule fault.at) }
    {
        let (local, host) = match divide(text) {
            Ok(parts) => parts,
            Err(fault) => return Err(fault),
        };
        match check_host(host) {
            Ok(()) => Ok(Identity::Mailbox { local, host }),
            Err(fault) => Err(IdentityFault {
                rule: fault.rule,
                at: local.len() + 1 + fault.at,
            }),
        }
    }
}
