//! Many bases of constraints on mail addresses.

ghost use Rattle.std.specs.Prelude.{◌≡◌, ◌↔◌, IsTrue, IfOk, OnOk, map};
ghost use Rattle.std.specs.List.Sorted.{IsSortedBy, IsPermutation};
ghost use Rattle.names_hosts.specs.Hosts.{host_names};
ghost use Rattle.names_hosts.specs.Mail.{mail_text, mail_names};
ghost use Rattle.names_hosts.specs.MailLists.{HasMail, HoldsMail, mail_order, is_mail_before, is_one_mailbox, mailboxes_in, hosts_at};

use crate::host_index::{HostIndex, compare_hosts};
use crate::hosts::HostBase;
use crate::local_part::compare_locals;
use crate::mail::{MailBase, MailName};
use std::alloc::{AllocError, Global};
use std::cmp::Ordering;
use std::marker::Model;

/// Bases on mail addresses. Whether a mail address is among those of one of them is found by halving.
#[derive(Drop)]
pub struct MailIndex<'a> {
    all: Vec<MailBase<'a>>,
    /// The mailboxes of the bases of one mailbox, in order.
    mailboxes: Vec<MailName<'a>>,
    /// The hosts of the others.
    hosts: HostIndex<'a>,
}

impl<'a> Model for MailIndex<'a> {
    ghost use Rattle.std.specs.Prelude.{List, map};
    ghost use Rattle.names_hosts.specs.Mail.{MailNames, mail_names};
    ghost use Rattle.names_hosts.specs.MailLists.{IsMailIndex};

    ghost Value = { List MailNames };

    ghost view = { λ i. map mail_names i.all.items };

    ghost invariant = { λ i. IsMailIndex i.all.items i.mailboxes.items i.hosts };
}

/// Compares mail addresses by their hosts, and then by what their local parts stand for.
fn compare_mail(one: &MailName<'_>, other: &MailName<'_>) -> Ordering
    ensures { result ≡ mail_order (mail_text one.now) (mail_text other.now) }
{
    compare_hosts(one.host, other.host).then(compare_locals(one.local, other.local))
}

fn sort(list: &mut Vec<MailName<'_>>) -> Result<(), AllocError>
    ensures sorted { OnOk result (IsSortedBy is_mail_before list.new.items) }
    ensures same { IsPermutation list.old.items list.new.items }
{
    list.sort_by(|one, other| compare_mail(one, other))
}

/// The mailboxes of the bases of one mailbox.
fn mailboxes_of<'a>(alloc: Global, list: &[MailBase<'a>]) -> Result<Vec<MailName<'a>>, AllocError>
    ensures { IfOk result (λ found. map mail_text found.items ≡ mailboxes_in list.now) }
{
    let mut mailboxes = Vec::new(alloc);
    for base in list {
        if let MailBase::Mailbox(mailbox) = base {
            mailboxes.push(*mailbox)?;
        }
    }
    Ok(mailboxes)
}

/// The hosts of the others.
fn hosts_of<'a>(alloc: Global, list: &[MailBase<'a>]) -> Result<Vec<HostBase<'a>>, AllocError>
    ensures { IfOk result (λ found. map host_names found.items ≡ hosts_at list.now) }
{
    let mut hosts = Vec::new(alloc);
    for base in list {
        if let MailBase::Hosts(host) = base {
            hosts.push(*host)?;
        }
    }
    Ok(hosts)
}

/// Whether the mail address is one of these, which are in order.
fn finds(mailboxes: &[MailName<'_>], name: &MailName<'_>) -> bool
    requires { IsSortedBy is_mail_before mailboxes.now }
    ensures { result ≡ is_one_mailbox mailboxes.now (mail_text name.now) }
{
    mailboxes
        .binary_search_by(|one| compare_mail(one, name))
        .is_ok()
}

impl<'a> MailIndex<'a> {
    /// An index of the bases. Time is n log n.
    pub fn of(alloc: Global, all: Vec<MailBase<'a>>) -> Result<MailIndex<'a>, AllocError>
        ensures { IfOk result (λ index. index ≡ map mail_names all.entry.items) }
    {
        let mut mailboxes = mailboxes_of(alloc, &all)?;
        sort(&mut mailboxes)?;
        let hosts = HostIndex::of(alloc, hosts_of(alloc, &all)?)?;
        Ok(MailIndex {
            all,
            mailboxes,
            hosts,
        })
    }

    /// The bases, as they were given.
    pub fn bases(&self) -> &[MailBase<'a>]
        ensures { map mail_names result.now ≡ self.now }
    {
        &self.all
    }

    /// Whether the mail address is among those of one of the bases. Log n comparisons are made, and no memory is taken.
    pub fn covers(&self, name: &MailName<'_>) -> bool
        ensures decides { IsTrue result ↔ HasMail self.now (mail_text name.now) }
    {
        finds(&self.mailboxes, name) || self.hosts.covers(name.host)
    }
    /// Whether the mail addresses of the base are among those of one of these.
    pub fn holds(&self, base: &MailBase<'_>) -> bool
        ensures decides { IsTrue result ↔ HoldsMail self.now (mail_names base.now) }
    {
        match base {
            MailBase::Mailbox(name) => self.covers(name),
            MailBase::Hosts(hosts) => self.hosts.holds(hosts),
        }
    }
}
