//! The name constraints of the certificates of a path that have passed.

ghost use Rattle.std.specs.Prelude.{◌≡◌, ◌↔◌, ◌≤◌, ◌++◌, map, false, OnOk, OnErr, IfOk, IsOk, IsTrue};
ghost use Rattle.names.specs.GeneralView.{general_name, name_contents};
ghost use Rattle.cert.specs.Certificate.{seen_certificate};
ghost use Rattle.cert.specs.CertificateHosts.{seen_hosts};
ghost use Rattle.path_host_constraints.specs.HostConstraints.{FindHosts, HasNoBase, Narrows};
ghost use Rattle.path_conditions.specs.NamesOf.{names_of};
ghost use Rattle.path_conditions.specs.Narrowing.{bases_of, has_processed, IsReplacedBy, processed_in};
ghost use Rattle.path_conditions.specs.Constraints.{seen_constraints, no_constraints, IsNarrowedBy, HasNoProcessed, PermitsEach, ExcludesNone, permits_in, permits_name, permits_each, excludes_one, names_in_subject, size_of, subtree_count};

use crate::coverage::{is_processed, one_is_processed};
use crate::excluded::Excluded;
use crate::narrowing::narrowed_if_new;
use crate::subtree_list::SubtreeList;
use cert::{Certificate, CertificateHosts};
use names::{Form, General, Name, Subtree};
use path_host_constraints::HostConstraints;
use std::alloc::{AllocError, Global};

/// For each processed form the permitted subtrees, if some certificate had any; and the excluded subtrees of processed forms (RFC 5280,
/// 6.1.2 (b), (c)).
#[derive(Drop)]
pub struct Constraints<'a> {
    directory: Option<SubtreeList<'a>>,
    dns: Option<SubtreeList<'a>>,
    ip: Option<SubtreeList<'a>>,
    excluded: Excluded<'a>,
    hosts: HostConstraints<'a>,
}

/// Puts a new list in place, if there is one.
fn replace<'a>(list: &mut Option<SubtreeList<'a>>, change: Option<SubtreeList<'a>>)
    ensures { IsReplacedBy change.entry list.old list.new }
{
    if let Some(change) = change {
        *list = Some(change);
    }
}

/// The subtrees of processed forms.
fn select_processed<'a>(
    alloc: Global,
    carried: &[Subtree<'a>],
) -> Result<Vec<Subtree<'a>>, AllocError>
    ensures { IfOk result (λ list. list.items ≡ processed_in carried.now) }
{
    carried
        .iter()
        .copied()
        .filter(|base| is_processed(base))
        .collect(alloc)
}

/// Adds the subtrees of processed forms, and narrows the constraints on hosts; or neither.
fn exclude<'a>(
    alloc: Global,
    held: &mut Excluded<'a>,
    carried: &[Subtree<'a>],
    hosts: &mut HostConstraints<'a>,
    named: &CertificateHosts<'a>,
) -> Result<(), AllocError>
    ensures ok { OnOk result (held.new ≡ held.old ++ bases_of (processed_in carried.now)) }
    ensures narrowed { OnOk result (Narrows (seen_hosts named.now) hosts.old hosts.new) }
    ensures err { OnErr result (held.new ≡ held.old) }
    ensures unchanged { OnErr result (hosts.new ≡ hosts.old) }
    ensures calm { has_processed (bases_of carried.now) ≡ false
        → HasNoBase (seen_hosts named.now) → IsOk result }
{
    if !one_is_processed(carried) {
        return hosts.narrow(alloc, named);
    }
    let more = select_processed(alloc, carried)?;
    held.extend(alloc, &more, hosts, named)
}

/// How many subtrees a list has.
fn len_of(list: &Option<SubtreeList<'_>>) -> usize
    ensures { result ≡ size_of list.now }
{
    match list {
        None => 0,
        Some(list) => list.len(),
    }
}

/// Whether the list, if there is one, holds the name.
fn is_permitted_by(list: &Option<SubtreeList<'_>>, name: &General<'_>) -> bool
    ensures { result ≡ permits_in list.now (general_name name.now) }
{
    match list {
        None => true,
        Some(list) => list.covers(name),
    }
}

impl<'a> Constraints<'a> {
    /// The constraints before the first certificate, which admit every name.
    pub fn none(alloc: Global) -> Constraints<'a>
        ensures { seen_constraints result ≡ no_constraints }
    {
        Constraints {
            directory: None,
            dns: None,
            ip: None,
            excluded: Excluded::none(alloc),
            hosts: HostConstraints::none(alloc),
        }
    }

    /// Narrows the permitted subtrees, and adds the excluded ones (RFC 5280, 6.1.4 (g)). New lists are built before old ones are replaced,
    /// so lack of memory changes nothing.
    pub fn narrow(&mut self, alloc: Global, certificate: &Certificate<'a>) -> Result<(), AllocError>
        ensures ok { OnOk result (IsNarrowedBy certificate.now self.old self.new) }
        ensures err { OnErr result (seen_constraints self.new ≡ seen_constraints self.old) }
        ensures calm { HasNoProcessed certificate.now → IsOk result }
    {
        let carried = &certificate.extensions.name_constraints;
        let directory = narrowed_if_new(
            alloc,
            Form::Directory,
            &self.directory,
            &carried.permitted,
        )?;
        let dns = narrowed_if_new(alloc, Form::Dns, &self.dns, &carried.permitted)?;
        let ip = narrowed_if_new(alloc, Form::Ip, &self.ip, &carried.permitted)?;
        let (excluded, hosts) = (&mut self.excluded, &mut self.hosts);
        exclude(
            alloc,
            excluded,
            &carried.excluded,
            hosts,
            &certificate.hosts,
        )?;
        replace(&mut self.directory, directory);
        replace(&mut self.dns, dns);
        replace(&mut self.ip, ip);
        Ok(())
    }

    /// How many subtrees are held.
    pub fn len(&self) -> usize
        requires { subtree_count (seen_constraints self.now) ≤ 524288 }
        ensures { result ≡ subtree_count (seen_constraints self.now) }
    {
        len_of(&self.directory) + len_of(&self.dns) + len_of(&self.ip) + self.excluded.len()
    }

    /// Whether the permitted subtrees for the form of the name hold it.
    fn permits(&self, name: &General<'_>) -> bool
        ensures { result ≡ permits_name (seen_constraints self.now) (general_name name.now) }
    {
        match name {
            General::Directory(_) => is_permitted_by(&self.directory, name),
            General::Dns(_) => is_permitted_by(&self.dns, name),
            General::Ip(_) => is_permitted_by(&self.ip, name),
            General::Other(_, _) => true,
        }
    }

    /// Whether the subject is empty or permitted.
    fn permits_subject(&self, subject: Name<'_>) -> bool
        ensures { result ≡ permits_each (seen_constraints self.now)
            (names_in_subject (name_contents subject.entry)) }
    {
        subject.is_empty() || self.permits(&General::Directory(subject))
    }

    /// Whether all names are permitted.
    fn permits_all(&self, names: &[General<'_>]) -> bool
        ensures { result ≡ permits_each (seen_constraints self.now) (map general_name names.now) }
    {
        names.iter().all(|name| self.permits(name))
    }

    /// Whether the names that it carries itself are.
    fn permits_carried(&self, certificate: &Certificate<'_>) -> bool
        ensures { result ≡ permits_each (seen_constraints self.now)
            (names_of (seen_certificate certificate.now)) }
    {
        self.permits_subject(certificate.subject)
            && self.permits_all(&certificate.extensions.alternative_names)
    }

    /// Whether all names of the certificate are permitted, and its mail addresses and hosts (RFC 5280, 6.1.3 (b)). Each is looked for among
    /// the permitted subtrees of its form.
    pub fn permits_names_of(&self, certificate: &Certificate<'_>) -> bool
        ensures { IsTrue result ↔ PermitsEach (seen_constraints self.now)
            (seen_certificate certificate.now) }
    {
        self.permits_carried(certificate) && self.hosts.permits(&certificate.hosts)
    }

    /// Whether the subject is not empty and is excluded.
    fn excludes_subject(&self, subject: Name<'_>) -> bool
        ensures { result ≡ excludes_one (seen_constraints self.now)
            (names_in_subject (name_contents subject.entry)) }
    {
        !subject.is_empty() && self.excluded.covers(&General::Directory(subject))
    }

    /// Whether one of the names is excluded.
    fn excludes_one(&self, names: &[General<'_>]) -> bool
        ensures { result ≡ excludes_one (seen_constraints self.now) (map general_name names.now) }
    {
        names.iter().any(|name| self.excluded.covers(name))
    }

    /// Whether a name that it carries itself is excluded.
    fn excludes_carried(&self, certificate: &Certificate<'_>) -> bool
        ensures { result ≡ excludes_one (seen_constraints self.now)
            (names_of (seen_certificate certificate.now)) }
    {
        self.excludes_subject(certificate.subject)
            || self.excludes_one(&certificate.extensions.alternative_names)
    }

    /// Whether no name of the certificate is excluded, and none of its mail addresses and hosts (RFC 5280, 6.1.3 (c)). Each is looked for
    /// among the excluded subtrees.
    pub fn excludes_no_name_of(&self, certificate: &Certificate<'_>) -> bool
        ensures { IsTrue result ↔ ExcludesNone (seen_constraints self.now)
            (seen_certificate certificate.now) }
    {
        !self.excludes_carried(certificate) && self.hosts.excludes_none(&certificate.hosts)
    }

    /// Whether each URI of the certificate has a host that is a DNS name, if URIs are constrained (RFC 5280, 4.2.1.10).
    pub fn finds_hosts_of(&self, certificate: &Certificate<'_>) -> bool
        ensures { IsTrue result ↔ FindHosts (seen_constraints self.now).hosts
            (seen_certificate certificate.now).hosts }
    {
        self.hosts.finds_hosts(&certificate.hosts)
    }
}
