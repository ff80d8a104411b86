//! Many bases of constraints on hosts.

ghost use Rattle.std.specs.Prelude.{◌≡◌, ◌↔◌, IsTrue, IfOk, OnOk, map};
ghost use Rattle.std.specs.List.Sorted.{IsSortedBy, IsPermutation};
ghost use Rattle.names.specs.GeneralView.{subtree_base};
ghost use Rattle.names_hosts.specs.Hosts.{host_names};
ghost use Rattle.names_hosts.specs.HostLists.{HasHost, HoldsHosts, host_order, is_host_before, is_one_host, hosts_in, domains_in, octets_of};

use crate::hosts::HostBase;
use names::{Domain, General, Subtree};
use names_order::{Index, order};
use std::alloc::{AllocError, Global};
use std::cmp::Ordering;
use std::marker::Model;

/// Bases on hosts. Whether a host is among those of one of them is found by halving.
#[derive(Drop)]
pub struct HostIndex<'a> {
    all: Vec<HostBase<'a>>,
    /// The hosts of the bases of one host, in order.
    hosts: Vec<&'a [u8]>,
    /// The domains of the others.
    domains: Index<'a>,
}

impl<'a> Model for HostIndex<'a> {
    ghost use Rattle.std.specs.Prelude.{List, map};
    ghost use Rattle.names_hosts.specs.Hosts.{HostNames, host_names};
    ghost use Rattle.names_hosts.specs.HostLists.{IsHostIndex};

    ghost Value = { List HostNames };

    ghost view = { λ i. map host_names i.all.items };

    ghost invariant = { λ i. IsHostIndex i.all.items i.hosts.items i.domains };
}

/// Compares hosts by their labels, from the last one on, with ASCII case folded.
pub(crate) fn compare_hosts(one: &[u8], other: &[u8]) -> Ordering
    ensures { result ≡ host_order one.now other.now }
{
    order(
        &Subtree::Dns(Domain::Within(one)),
        &Subtree::Dns(Domain::Within(other)),
    )
}

fn sort(list: &mut Vec<&[u8]>) -> Result<(), AllocError>
    ensures sorted { OnOk result (IsSortedBy is_host_before list.new.items) }
    ensures same { IsPermutation list.old.items list.new.items }
{
    list.sort_by(|one, other| compare_hosts(one, other))
}

/// The hosts of the bases of one host.
fn hosts_of<'a>(alloc: Global, list: &[HostBase<'a>]) -> Result<Vec<&'a [u8]>, AllocError>
    ensures { IfOk result (λ hosts. map octets_of hosts.items ≡ hosts_in list.now) }
{
    let mut hosts = Vec::new(alloc);
    for base in list {
        if let HostBase::Host(host) = base {
            hosts.push(*host)?;
        }
    }
    Ok(hosts)
}

/// The domains of the others.
fn domains_of<'a>(alloc: Global, list: &[HostBase<'a>]) -> Result<Vec<Subtree<'a>>, AllocError>
    ensures { IfOk result (λ domains. map subtree_base domains.items ≡ domains_in list.now) }
{
    let mut domains = Vec::new(alloc);
    for base in list {
        if let HostBase::Domain(domain) = base {
            domains.push(Subtree::Dns(Domain::Below(domain)))?;
        }
    }
    Ok(domains)
}

/// Whether the host is one of these, which are in order.
fn finds(hosts: &[&[u8]], host: &[u8]) -> bool
    requires { IsSortedBy is_host_before hosts.now }
    ensures { result ≡ is_one_host hosts.now host.now }
{
    hosts
        .binary_search_by(|one| compare_hosts(one, host))
        .is_ok()
}

impl<'a> HostIndex<'a> {
    /// An index of the bases. Time is n log n.
    pub fn of(alloc: Global, all: Vec<HostBase<'a>>) -> Result<HostIndex<'a>, AllocError>
        ensures { IfOk result (λ index. index ≡ map host_names all.entry.items) }
    {
        let mut hosts = hosts_of(alloc, &all)?;
        sort(&mut hosts)?;
        let domains = Index::of(alloc, domains_of(alloc, &all)?)?;
        Ok(HostIndex {
            all,
            hosts,
            domains,
        })
    }

    /// The bases, as they were given.
    pub fn bases(&self) -> &[HostBase<'a>]
        ensures { map host_names result.now ≡ self.now }
    {
        &self.all
    }

    /// Whether the host is among those of one of the bases. Log n comparisons are made, and no memory is taken.
    pub fn covers(&self, host: &[u8]) -> bool
        ensures decides { IsTrue result ↔ HasHost self.now host.now }
    {
        finds(&self.hosts, host) || self.domains.covers(&General::Dns(host))
    }
    /// Whether the hosts of the base are among those of one of these.
    pub fn holds(&self, base: &HostBase<'_>) -> bool
        ensures decides { IsTrue result ↔ HoldsHosts self.now (host_names base.now) }
    {
        match base {
            HostBase::Host(host) => self.covers(host),
            HostBase::Domain(domain) => self.domains.holds(&Subtree::Dns(Domain::Below(domain))),
        }
    }
}
