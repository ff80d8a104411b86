//! Names: hosts, IP addresses and mailboxes.
ghost use Rattle.std.specs.Prelude.{◌≡◌, false, IfErr, IfOk, option_map, true};
ghost use Rattle.names_identity.specs.Identity.{address_identity, reference_identity};
ghost use Rattle.cli_operands.specs.Name.{IsBadName, IsName, IsNameBy, IsNameOf, IsNoName, IsNoNameBy, address_octets, has_at_sign, identity_named};

use cli_failures::Failure;
use names_identity::{Identity, IdentityFault};
use std::net::IpAddr;

/// A name that is asked for.
#[derive(Clone, Copy)]
pub enum Name<'a> {
    /// A host or a mailbox.
    Text(Identity<'a>),
    /// The octets of an IPv4 address.
    V4([u8; 4]),
    /// The octets of an IPv6 address.
    V6([u8; 16]),
}

impl Name<'_> {
    /// The identity that a certificate has to speak for.
    pub fn identity(&self) -> Identity<'_>
        ensures { reference_identity result ≡ identity_named self.now }
    {
        match self {
            Name::Text(identity) => *identity,
            Name::V4(octets) => Identity::Address(octets),
            Name::V6(octets) => Identity::Address(octets),
        }
    }
}

/// Whether an at sign stands in the text.
fn has_at_sign(text: &[u8]) -> bool
    ensures { result ≡ has_at_sign text.now }
{
    text.iter().any(|octet| *octet == b'@')
}

/// The name that is this address.
fn name_of<'a>(address: IpAddr) -> Name<'a>
    ensures { identity_named result ≡ address_identity (address_octets address) }
{
    match address {
        IpAddr::V4(address) => Name::V4(address.octets()),
        IpAddr::V6(address) => Name::V6(address.octets()),
    }
}

/// The IP address or the host that the text is.
fn address_or_host(text: &str) -> Result<Name<'_>, IdentityFault>
    ensures reads { IfOk result (λ name. IsNameBy false text.now (identity_named name)) }
    ensures refuses { IfErr result (λ fault. IsNoNameBy false text.now fault.rule fault.at) }
{
    if let Ok(address) = text.parse::<IpAddr>() {
        return Ok(name_of(address));
    }
    match Identity::host(text.as_bytes()) {
        Ok(identity) => Ok(Name::Text(identity)),
        Err(fault) => Err(fault),
    }
}

/// The mailbox that the text is.
fn mailbox(text: &str) -> Result<Name<'_>, IdentityFault>
    ensures reads { IfOk result (λ name. IsNameBy true text.now (identity_named name)) }
    ensures refuses { IfErr result (λ fault. IsNoNameBy true text.now fault.rule fault.at) }
{
    match Identity::mailbox(text.as_bytes()) {
        Ok(identity) => Ok(Name::Text(identity)),
        Err(fault) => Err(fault),
    }
}

/// The name that the text is.
fn name_in(text: &str) -> Result<Name<'_>, IdentityFault>
    ensures reads { IfOk result (λ name. IsName text.now (identity_named name)) }
    ensures refuses { IfErr result (λ fault. IsNoName text.now fault.rule fault.at) }
{
    if has_at_sign(text.as_bytes()) {
        mailbox(text)
    } else {
        address_or_host(text)
    }
}

/// Reads the name that is asked for, if one is: a mailbox if there is an at sign in the text, otherwise an IP address if it is one, and
/// otherwise a host. If it is none of them, `BadName` says where it stops being one. It takes no memory.
pub fn read_name<'n, 'a>(text: Option<&'n str>) -> Result<Option<Name<'n>>, Failure<'a>>
    ensures reads { IfOk result (λ name. IsNameOf (option_map (λ s. s.now) text.entry)
        (option_map identity_named name)) }
    ensures fails { IfErr result (IsBadName (option_map (λ s. s.now) text.entry)) }
{
    let Some(text) = text else {
        return Ok(None);
    };
    match name_in(text) {
        Ok(name) => Ok(Some(name)),
        Err(fault) => Err(Failure::BadName { at: fault.at }),
    }
}

/// The identity that the name is, if one is asked for.
pub fn identity_of<'a>(name: &'a Option<Name<'_>>) -> Option<Identity<'a>>
    ensures { option_map reference_identity result ≡ option_map identity_named name.now }
{
    match name {
        Some(name) => Some(name.identity()),
        None => None,
    }
}
