//! DNS names and the domains that constrain them (RFC 5280, 4.2.1.6 and 4.2.1.10).

ghost use Rattle.std.specs.Prelude.{◌≡◌, ◌↔◌, IsTrue, IsSome, IfSome};
ghost use Rattle.std.specs.List.{list_all, slice_split};
ghost use Rattle.names.specs.Dns.{IsDnsName, IsBaseOf, IsInDomain, is_dot, is_label, is_label_length, is_label_octet, ends_in_labels, ends_in_more_labels, is_in_domain, is_domain_inside};
ghost use Rattle.asn.specs.Reading.{seen};
ghost use Rattle.names.specs.Bases.{is_dns_name, domain_names, names_of_base};
ghost use Rattle.names.specs.Laws.{DomainTestIsExact, DomainInsideIsSound, SharedDomainsAreNested};

/// The most octets of a DNS name.
const MAX_NAME_LEN: usize = 253;

/// The base of a DNS constraint that was read (RFC 5280, 4.2.1.10).
#[derive(Clone, Copy)]
pub enum Domain<'a> {
    /// Every DNS name.
    Every,
    /// The names that end in these labels, and the name of just these.
    Within(&'a [u8]),
    /// The names with at least one label before these.
    Below(&'a [u8]),
}

fn is_label_octet(octet: u8) -> bool
    ensures { result ≡ is_label_octet octet }
{
    b'!' <= octet && octet <= b'~' && octet != b'.'
}

/// Whether a label may have so many octets.
fn is_label_length(count: usize) -> bool
    ensures { result ≡ is_label_length count }
{
    0 < count && count <= 63
}

/// Whether the octets are labels, joined by dots.
fn has_labels(name: &[u8]) -> bool
    ensures { result ≡ list_all is_label (slice_split is_dot name.now) }
{
    // how many octets of its label stand before an octet
    let mut count = 0;
    for octet in name {
        if *octet == b'.' {
            if !is_label_length(count) {
                return false;
            }
            count = 0;
        } else if is_label_octet(*octet) {
            count += 1;
        } else {
            return false;
        }
    }
    is_label_length(count)
}

/// Whether the octets are a DNS name: labels of 1 to 63 octets, joined by dots, 253 octets at most. Time is linear.
#[tactic(auto, unfolding(crate::specs::Bases::is_dns_name))]
pub fn is_dns_name(name: &[u8]) -> bool
    ensures decides { IsTrue result ↔ IsDnsName name.now }
    ensures test { result ≡ is_dns_name name.now }
{
    name.len() <= MAX_NAME_LEN && has_labels(name)
}

/// Whether the labels of `name` end in those of `base`.
fn ends_in(name: &[u8], base: &[u8]) -> bool
    ensures { result ≡ ends_in_labels name.now base.now }
{
    if name.len() < base.len() {
        return false;
    }
    let (front, tail) = name.split_at(name.len() - base.len());
    if !tail.eq_ignore_ascii_case(base) {
        return false;
    }
    match front.last() {
        None => true,
        Some(octet) => *octet == b'.',
    }
}

/// Whether they do, and are more.
fn ends_in_more(name: &[u8], base: &[u8]) -> bool
    ensures { result ≡ ends_in_more_labels name.now base.now }
{
    base.len() < name.len() && ends_in(name, base)
}

impl<'a> Domain<'a> {
    /// Reads the base of a constraint: nothing, a DNS name, or a dot and a DNS name; `None` for other octets.
    #[tactic(auto, unfolding(crate::specs::Bases::names_of_base))]
    pub fn of_base(base: &'a [u8]) -> Option<Domain<'a>>
        ensures reads { IfSome result (IsBaseOf base.now) }
        ensures accepts { (domain : Domain) → IsBaseOf base.now domain → IsSome result }
        ensures names { seen domain_names result ≡ names_of_base base.now }
    {
        match base.split_first() {
            None => Some(Domain::Every),
            Some((b'.', name)) => is_dns_name(name).then_some(Domain::Below(name)),
            Some(_) => is_dns_name(base).then_some(Domain::Within(base)),
        }
    }
}

impl Domain<'_> {
    /// Whether the name lies in the domain, without regard to ASCII case.
    #[tactic(auto, unfolding(crate::specs::Dns::is_in_domain))]
    pub fn covers(&self, name: &[u8]) -> bool
        ensures decides { IsTrue result ↔ IsInDomain name.now self.now }
        ensures test { result ≡ is_in_domain name.now self.now }
    {
        match self {
            Domain::Every => true,
            Domain::Within(base) => ends_in(name, base),
            Domain::Below(base) => ends_in_more(name, base),
        }
    }

    /// Whether the domain lies in the other.
    #[tactic(auto, unfolding(crate::specs::Dns::is_domain_inside))]
    pub fn inside(&self, other: &Domain<'_>) -> bool
        ensures { result ≡ is_domain_inside self.now other.now }
    {
        match (self, other) {
            (_, Domain::Every) => true,
            (Domain::Every, _) => false,
            (Domain::Within(inner), Domain::Below(outer)) => ends_in_more(inner, outer),
            (Domain::Within(inner), Domain::Within(outer))
            | (Domain::Below(inner), Domain::Within(outer))
            | (Domain::Below(inner), Domain::Below(outer)) => ends_in(inner, outer),
        }
    }
}

/// The test `covers` decides the relation on labels; `inside` is sound; and two domains that share a name are nested.
pub fn domain_laws()
    ensures test { DomainTestIsExact }
    ensures sound { DomainInsideIsSound }
    ensures nested { SharedDomainsAreNested }
{}
