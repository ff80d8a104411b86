//! The constraints on mail addresses and URIs of the certificates of a path that have passed (RFC 5280, 6.1.2 (b) and (c)).

ghost use Rattle.std.specs.Prelude.{◌≡◌, ◌↔◌, ◌+◌, ◌^◌, ◌<◌, ◌≤◌, IsTrue, IsOk, IfOk, OnOk, OnErr, true, vec_len};
ghost use Rattle.cert.specs.CertificateHosts.{seen_hosts};
ghost use Rattle.path_host_constraints.specs.HostConditions.{ConstrainsMail, ConstrainsUris};
ghost use Rattle.path_host_constraints.specs.Lists.{HasEach};
ghost use Rattle.path_host_constraints.specs.HostConstraints.{no_constraints, Narrows, HasNoBase, Permit, DoNotExclude, FindHosts, base_count, bases_in, CountsExcluded};

use crate::host_lists::{
    count_hosts, excludes_no_host, join_hosts, lacks_no_host, narrow_hosts, permits_all_hosts,
};
use crate::indexes::{put, replace};
use crate::mail_lists::{
    are_mailboxes, count_mail, excludes_no_mail, join_mail, narrow_mail, permits_all_mail,
};
use cert::CertificateHosts;
use names_hosts::{HostIndex, MailIndex};
use std::alloc::{AllocError, Global};
use std::marker::Model;

/// More excluded bases than a machine has room for.
const MOST: usize = 1 << 62;

/// Of either form the permitted bases, if some certificate had any, and the excluded ones, in indexes of its parts.
#[derive(Drop)]
pub struct HostConstraints<'a> {
    mail: Option<MailIndex<'a>>,
    hosts: Option<HostIndex<'a>>,
    excluded_mail: Vec<MailIndex<'a>>,
    excluded_hosts: Vec<HostIndex<'a>>,
    /// How many bases are excluded, of both forms.
    excluded: usize,
    /// Whether some certificate constrained mail addresses.
    constrains_mail: bool,
    /// Whether some certificate constrained URIs.
    constrains_uris: bool,
}

impl<'a> Model for HostConstraints<'a> {
    ghost use Rattle.path_host_constraints.specs.HostConstraints.{HostConstraints, CountsExcluded};
    ghost use Rattle.path_host_constraints.specs.Lists.{members_of};

    ghost Value = { HostConstraints };

    ghost view = { λ h. record {
      mail = h.mail;
      hosts = h.hosts;
      excluded_mail = members_of h.excluded_mail.items;
      excluded_hosts = members_of h.excluded_hosts.items;
      constrains_mail = h.constrains_mail;
      constrains_uris = h.constrains_uris;
    } };

    ghost invariant = { λ h. CountsExcluded (members_of h.excluded_mail.items) (members_of h.excluded_hosts.items) h.excluded };
}

/// Whether the certificate constrains mail addresses.
fn constrains_mail(hosts: &CertificateHosts<'_>) -> bool
    ensures { IsTrue result ↔ ConstrainsMail (seen_hosts hosts.now) }
{
    !hosts.permitted_mail.is_empty() || !hosts.excluded_mail.is_empty()
}

/// Whether it constrains URIs.
fn constrains_uris(hosts: &CertificateHosts<'_>) -> bool
    ensures { IsTrue result ↔ ConstrainsUris (seen_hosts hosts.now) }
{
    !hosts.permitted_hosts.is_empty() || !hosts.excluded_hosts.is_empty()
}

/// Whether it constrains neither form.
fn has_no_base(hosts: &CertificateHosts<'_>) -> bool
    ensures { IsTrue result ↔ HasNoBase (seen_hosts hosts.now) }
{
    !constrains_mail(hosts) && !constrains_uris(hosts)
}

/// Whether each mail address of the certificate is a mailbox, if that is asked.
fn has_each_mailbox(asked: bool, hosts: &CertificateHosts<'_>) -> bool
    ensures { IsTrue result ↔ (asked ≡ true → HasEach (seen_hosts hosts.now).mail) }
{
    !asked || are_mailboxes(&hosts.mail)
}

/// Whether each URI of the certificate has a host, if that is asked.
fn has_each_host(asked: bool, hosts: &CertificateHosts<'_>) -> bool
    ensures { IsTrue result ↔ (asked ≡ true → HasEach (seen_hosts hosts.now).hosts) }
{
    !asked || lacks_no_host(&hosts.hosts)
}

/// How many bases are excluded behind the certificate. Memory has room for fewer than `MOST`.
fn count_excluded(before: usize, hosts: &CertificateHosts<'_>) -> Result<usize, AllocError>
    ensures count { IfOk result (λ count. count ≡ before
        + (vec_len hosts.now.excluded_mail + vec_len hosts.now.excluded_hosts)) }
    ensures small { IfOk result (λ count. count < 2 ^ 62) }
    ensures full { OnErr result (2 ^ 62 ≤ before
        + (vec_len hosts.now.excluded_mail + vec_len hosts.now.excluded_hosts)) }
{
    let more = hosts.excluded_mail.len() + hosts.excluded_hosts.len();
    match before.checked_add(more) {
        Some(count) if count < MOST => Ok(count),
        _ => Err(AllocError),
    }
}

impl<'a> HostConstraints<'a> {
    /// Those before the first certificate, which admit every name.
    pub fn none(alloc: Global) -> HostConstraints<'a>
        ensures { result ≡ no_constraints }
    {
        HostConstraints {
            mail: None,
            hosts: None,
            excluded_mail: Vec::new(alloc),
            excluded_hosts: Vec::new(alloc),
            excluded: 0,
            constrains_mail: false,
            constrains_uris: false,
        }
    }

    /// Narrows what is permitted, and adds what is excluded (RFC 5280, 6.1.4 (g)). New parts are built before old ones are replaced, so lack
    /// of memory changes nothing.
    pub fn narrow(&mut self, alloc: Global, hosts: &CertificateHosts<'a>) -> Result<(), AllocError>
        ensures ok { OnOk result (Narrows (seen_hosts hosts.now) self.old self.new) }
        ensures err { OnErr result (self.new ≡ self.old) }
        ensures calm { HasNoBase (seen_hosts hosts.now) → IsOk result }
        ensures few { base_count self.new ≤ base_count self.old + bases_in (seen_hosts hosts.now) }
    {
        if has_no_base(hosts) {
            return Ok(());
        }
        let addresses = narrow_mail(alloc, &self.mail, &hosts.permitted_mail)?;
        let permitted = narrow_hosts(alloc, &self.hosts, &hosts.permitted_hosts)?;
        let joined_mail = join_mail(alloc, &self.excluded_mail, &hosts.excluded_mail)?;
        let joined_hosts = join_hosts(alloc, &self.excluded_hosts, &hosts.excluded_hosts)?;
        let excluded = count_excluded(self.excluded, hosts)?;
        self.excluded_mail.reserve(1)?;
        self.excluded_hosts.reserve(1)?;
        replace(&mut self.mail, addresses);
        replace(&mut self.hosts, permitted);
        put(&mut self.excluded_mail, joined_mail);
        put(&mut self.excluded_hosts, joined_hosts);
        self.excluded = excluded;
        let (mail, uris) = (constrains_mail(hosts), constrains_uris(hosts));
        self.constrains_mail = self.constrains_mail | mail;
        self.constrains_uris = self.constrains_uris | uris;
        Ok(())
    }
}

impl HostConstraints<'_> {
    /// How many bases are held, permitted and excluded.
    pub fn len(&self) -> usize
        ensures { result ≡ base_count self.now }
    {
        count_mail(&self.mail) + count_hosts(&self.hosts) + self.excluded
    }

    /// Whether all mail addresses and hosts of the certificate are permitted (RFC 5280, 6.1.3 (b)).
    pub fn permits(&self, hosts: &CertificateHosts<'_>) -> bool
        ensures { IsTrue result ↔ Permit self.now (seen_hosts hosts.now) }
    {
        permits_all_mail(&self.mail, &hosts.mail) && permits_all_hosts(&self.hosts, &hosts.hosts)
    }

    /// Whether none of them is excluded (RFC 5280, 6.1.3 (c)).
    pub fn excludes_none(&self, hosts: &CertificateHosts<'_>) -> bool
        ensures { IsTrue result ↔ DoNotExclude self.now (seen_hosts hosts.now) }
    {
        excludes_no_mail(&self.excluded_mail, &hosts.mail)
            && excludes_no_host(&self.excluded_hosts, &hosts.hosts)
    }

    /// Whether each mail address of the certificate is a mailbox, if mail addresses are constrained, and whether each of its URIs has a host
    /// that is a fully qualified DNS name, if URIs are (RFC 5280, 4.2.1.10).
    pub fn finds_hosts(&self, hosts: &CertificateHosts<'_>) -> bool
        ensures { IsTrue result ↔ FindHosts self.now (seen_hosts hosts.now) }
    {
        has_each_mailbox(self.constrains_mail, hosts) && has_each_host(self.constrains_uris, hosts)
    }
}
