//! Hosts, and the bases of constraints on them (RFC 5280, 4.2.1.10).

ghost use Rattle.std.specs.Prelude.{◌≡◌, ◌↔◌, ◌-◌, IsTrue, IfSome, Some, length, option_map, slice_index};
ghost use Rattle.names.specs.Dns.{is_dot};
ghost use Rattle.names_identity.specs.Host.{IsHost};
ghost use Rattle.names_hosts.specs.Hosts.{HostNames, host_names, AreHostsOf, IsSameHost, IsAmongHosts, AreHostsInside};
ghost use Rattle.names_hosts.specs.Laws.{HostBaseIsOne, HostsInsideIsExact, SharedHostsAreNested, HostTestIsExact, HostBaseIsExact};

use names::Domain;
use names_identity::Identity;

/// The base of a constraint on hosts that was read.
#[derive(Clone, Copy)]
pub enum HostBase<'a> {
    /// This host alone.
    Host(&'a [u8]),
    /// The hosts with at least one label before this domain.
    Domain(&'a [u8]),
}

/// Whether the last octet is a dot.
fn ends_in_dot(text: &[u8]) -> bool
    ensures { result ≡ is_dot (slice_index text.now (length text.now - 1)) }
{
    match text.last() {
        Some(octet) => *octet == b'.',
        None => false,
    }
}

/// Whether the text is a host: labels of 1 to 63 letters, digits, hyphens and underscores, joined by dots, 253 octets at most, with no dot
/// at the end, and with a last label that is not digits alone. Time is linear.
pub fn is_host(text: &[u8]) -> bool
    ensures { IsTrue result ↔ IsHost text.now }
{
    !ends_in_dot(text) && Identity::host(text).is_ok()
}

/// Whether the hosts are the same, with ASCII case folded.
pub(crate) fn is_same_host(one: &[u8], other: &[u8]) -> bool
    ensures { IsTrue result ↔ IsSameHost one.now other.now }
{
    one.eq_ignore_ascii_case(other)
}

impl<'a> HostBase<'a> {
    /// Reads a base: a host, or a dot and a host; `None` for other octets.
    pub fn read(base: &'a [u8]) -> Option<HostBase<'a>>
        ensures reads { IfSome result (λ found. AreHostsOf base.now (host_names found)) }
        ensures accepts { (names : HostNames) → AreHostsOf base.now names
            → option_map host_names result ≡ Some names }
    {
        match base.split_first() {
            Some((b'.', domain)) => is_host(domain).then_some(HostBase::Domain(domain)),
            _ => is_host(base).then_some(HostBase::Host(base)),
        }
    }
}

impl HostBase<'_> {
    /// Whether the host is one of these, without regard to ASCII case.
    pub fn covers(&self, host: &[u8]) -> bool
        ensures decides { IsTrue result ↔ IsAmongHosts host.now (host_names self.now) }
    {
        match self {
            HostBase::Host(base) => is_same_host(host, base),
            HostBase::Domain(domain) => Domain::Below(domain).covers(host),
        }
    }

    /// Whether each of these is one of the others.
    pub fn inside(&self, other: &HostBase<'_>) -> bool
        ensures decides { IsTrue result
            ↔ AreHostsInside (host_names self.now) (host_names other.now) }
    {
        match (self, other) {
            (HostBase::Host(inner), HostBase::Host(outer)) => is_same_host(inner, outer),
            (HostBase::Host(inner), HostBase::Domain(outer)) => Domain::Below(outer).covers(inner),
            (HostBase::Domain(_), HostBase::Host(_)) => false,
            (HostBase::Domain(inner), HostBase::Domain(outer)) => {
                Domain::Within(outer).covers(inner)
            }
        }
    }
}

/// A base says one thing; `inside` is exact; and two bases that share a host are nested. The definitions `is_host` and `host_base_of`
/// give just what `IsHost` and `AreHostsOf` say.
pub fn host_laws()
    ensures one { HostBaseIsOne }
    ensures inside { HostsInsideIsExact }
    ensures nested { SharedHostsAreNested }
    ensures exact_host { HostTestIsExact }
    ensures exact_base { HostBaseIsExact }
{}
