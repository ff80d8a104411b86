//! Bases of constraints on the hosts of URIs, narrowed and joined from certificate to certificate (RFC 5280, 6.1.4 (g)).

ghost use Rattle.std.specs.Prelude.{◌≡◌, ◌↔◌, ◌≤◌, ◌<◌, ◌+◌, ◌^◌, ◌++◌, [], ℕ, List, IsTrue, IfOk, OnOk, length, map};
ghost use Rattle.std.specs.Option.{option_copied};
ghost use Rattle.names_hosts.specs.Hosts.{host_names};
ghost use Rattle.names_hosts.specs.HostLists.{HasHost};
ghost use Rattle.path_host_constraints.specs.HostLists.{Enters, TakesHostsIf, SelectsHosts, NarrowsHosts, HostsLieIn, PermitsHostIn, PermitsFound, PermitsAllHosts, IsNarrowedHosts, ExcludesFound, ExcludesNoHost};
ghost use Rattle.path_host_constraints.specs.Lists.{members_of, left_of, changed, size_of, HasEach};
ghost use Rattle.path_host_constraints.specs.Indexes.{with_joined};

use crate::indexes::Joined;
use names_hosts::{HostBase, HostIndex, host_laws};
use std::alloc::{AllocError, Global};

/// Whether the base lies in one of these, and in none of those.
fn enters(base: &HostBase<'_>, within: &HostIndex<'_>, except: &HostIndex<'_>) -> bool
    ensures { Enters within.now except.now (host_names base.now) result }
{
    if !within.holds(base) {
        return false;
    }
    let outside = except.holds(base);
    !outside
}

/// Adds the base if it lies in one of these, and in none of those.
fn take_if<'a>(
    selected: &mut Vec<HostBase<'a>>,
    base: &HostBase<'a>,
    within: &HostIndex<'_>,
    except: &HostIndex<'_>,
) -> Result<(), AllocError>
    ensures takes { OnOk result (TakesHostsIf within.now except.now (host_names base.now)
        (map host_names selected.old.items) (map host_names selected.new.items)) }
    ensures fewer { length selected.new.items ≤ length selected.old.items + 1 }
{
    if !enters(base, within, except) {
        return Ok(());
    }
    selected.push(*base)?;
    Ok(())
}

/// The bases of the list that lie in one of these, and in none of those.
fn select<'a>(
    alloc: Global,
    list: &[HostBase<'a>],
    within: &HostIndex<'_>,
    except: &HostIndex<'_>,
) -> Result<Vec<HostBase<'a>>, AllocError>
    ensures selects { IfOk result (λ selected. SelectsHosts within.now except.now
        (map host_names list.now) (map host_names selected.items)) }
    ensures fewer { IfOk result (λ selected. length selected.items ≤ length list.now) }
{
    host_laws();
    let mut selected = Vec::new(alloc);
    for base in list {
        take_if(&mut selected, base, within, except)?;
    }
    Ok(selected)
}

/// Whether each of the bases lies in one of these.
fn lie_in(bases: &[HostBase<'_>], within: &HostIndex<'_>) -> bool
    ensures { IsTrue result ↔ HostsLieIn within.now (map host_names bases.now) }
{
    for base in bases {
        if !within.holds(base) {
            return false;
        }
    }
    true
}

/// An index of the bases.
fn index_of<'a>(alloc: Global, bases: &[HostBase<'a>]) -> Result<HostIndex<'a>, AllocError>
    ensures { IfOk result (λ index. index ≡ map host_names bases.now) }
{
    let list = Vec::from_slice(alloc, bases)?;
    HostIndex::of(alloc, list)
}

/// An index of no bases.
fn no_bases<'a>(alloc: Global) -> Result<HostIndex<'a>, AllocError>
    ensures { IfOk result (λ index. index ≡ []) }
{
    HostIndex::of(alloc, Vec::new(alloc))
}

/// An index of the bases, with those of another.
fn joined<'a>(
    alloc: Global,
    bases: Vec<HostBase<'a>>,
    others: &HostIndex<'a>,
) -> Result<HostIndex<'a>, AllocError>
    ensures { IfOk result (λ index. index ≡ map host_names bases.entry.items ++ others.now) }
{
    let mut all = bases;
    all.extend_from_slice(others.bases())?;
    HostIndex::of(alloc, all)
}

/// Intersects two lists. The held one stays if each of its bases lies in one that is carried. Else the new one has of each list the bases
/// that lie in one of the other, except those in one that is kept: two bases that share a host are nested, so these have just the
/// hosts that both lists have.
fn narrow<'a>(
    alloc: Global,
    held: &HostIndex<'a>,
    carried: &[HostBase<'a>],
) -> Result<Option<HostIndex<'a>>, AllocError>
    ensures narrows { IfOk result (λ change. NarrowsHosts held.now (map host_names carried.now)
        (left_of held.now change)) }
    ensures fewer { IfOk result (λ change.
        length (left_of held.now change) ≤ length held.now + length carried.now) }
{
    host_laws();
    let carried_index = index_of(alloc, carried)?;
    if lie_in(held.bases(), &carried_index) {
        return Ok(None);
    }
    let none = no_bases(alloc)?;
    let kept = select(alloc, held.bases(), &carried_index, &none)?;
    let kept_index = HostIndex::of(alloc, kept)?;
    let entering = select(alloc, carried, held, &kept_index)?;
    let list = joined(alloc, entering, &kept_index)?;
    Ok(Some(list))
}

/// The change of the list behind a certificate that carries permitted bases.
fn narrowed<'a>(
    alloc: Global,
    list: &Option<HostIndex<'a>>,
    carried: &[HostBase<'a>],
) -> Result<Option<HostIndex<'a>>, AllocError>
    ensures narrows { IfOk result (λ change. (host : List ℕ) →
        PermitsHostIn (changed list.now change) host
        ↔ (PermitsHostIn list.now host × HasHost (map host_names carried.now) host)) }
    ensures fewer { IfOk result (λ change.
        size_of (changed list.now change) ≤ size_of list.now + length carried.now) }
{
    match list {
        None => {
            let new = index_of(alloc, carried)?;
            Ok(Some(new))
        }
        Some(held) => narrow(alloc, held, carried),
    }
}

/// The new list of what is permitted, if the certificate carries permitted bases. No list permits every host.
pub(crate) fn narrow_hosts<'a>(
    alloc: Global,
    list: &Option<HostIndex<'a>>,
    carried: &[HostBase<'a>],
) -> Result<Option<HostIndex<'a>>, AllocError>
    ensures narrows { IfOk result (λ change. IsNarrowedHosts list.now (map host_names carried.now)
        (changed list.now change)) }
    ensures fewer { IfOk result (λ change.
        size_of (changed list.now change) ≤ size_of list.now + length carried.now) }
{
    if carried.is_empty() {
        return Ok(None);
    }
    narrowed(alloc, list, carried)
}

/// How many bases the list has.
pub(crate) fn count_hosts(list: &Option<HostIndex<'_>>) -> usize
    ensures count { result ≡ size_of list.now }
    ensures small { result < 2 ^ 62 }
{
    match list {
        None => 0,
        Some(list) => list.bases().len(),
    }
}

/// Whether the list, if there is one, has the host.
fn permits_host(list: &Option<HostIndex<'_>>, host: &[u8]) -> bool
    ensures { IsTrue result ↔ PermitsHostIn list.now host.now }
{
    match list {
        None => true,
        Some(list) => list.covers(host),
    }
}

/// Whether it has the host, if there is one.
fn permits_found(list: &Option<HostIndex<'_>>, found: Option<&[u8]>) -> bool
    ensures { IsTrue result ↔ PermitsFound list.now (option_copied found.entry) }
{
    match found {
        None => true,
        Some(host) => permits_host(list, host),
    }
}

/// Whether it has all of them.
pub(crate) fn permits_all_hosts(list: &Option<HostIndex<'_>>, hosts: &[Option<&[u8]>]) -> bool
    ensures { IsTrue result ↔ PermitsAllHosts list.now (map option_copied hosts.now) }
{
    for found in hosts {
        if !permits_found(list, *found) {
            return false;
        }
    }
    true
}

/// How many of the indexes are left as they are if so many bases come; the others are joined with what comes. The shorter ones go, so that
/// there are few.
fn count_lasting(indexes: &[HostIndex<'_>], coming: usize) -> usize
    ensures { result ≤ length indexes.now }
{
    let mut count = indexes.len();
    let mut behind = coming;
    while count > 0 {
        let last = indexes[count - 1].bases().len();
        if last / 2 >= behind {
            return count;
        }
        behind = behind.saturating_add(last);
        count -= 1;
    }
    0
}

/// The bases of all indexes.
fn bases_of<'a>(alloc: Global, indexes: &[HostIndex<'a>]) -> Result<Vec<HostBase<'a>>, AllocError>
    ensures { IfOk result (λ all. map host_names all.items ≡ members_of indexes.now) }
{
    let mut all = Vec::new(alloc);
    for index in indexes {
        all.extend_from_slice(index.bases())?;
    }
    Ok(all)
}

/// The index that joins the excluded bases of one more certificate, if it has any, with those of the indexes that do not last.
pub(crate) fn join_hosts<'a>(
    alloc: Global,
    indexes: &[HostIndex<'a>],
    more: &[HostBase<'a>],
) -> Result<Option<Joined<HostIndex<'a>>>, AllocError>
    ensures { IfOk result (λ joined. members_of (with_joined joined indexes.now)
        ≡ members_of indexes.now ++ map host_names more.now) }
{
    if more.is_empty() {
        return Ok(None);
    }
    let lasting = count_lasting(indexes, more.len());
    let mut all = bases_of(alloc, &indexes[lasting..])?;
    all.extend_from_slice(more)?;
    let index = HostIndex::of(alloc, all)?;
    Ok(Some(Joined { lasting, index }))
}

/// Whether one of the indexes has the host.
fn excludes_host(indexes: &[HostIndex<'_>], host: &[u8]) -> bool
    ensures { IsTrue result ↔ HasHost (members_of indexes.now) host.now }
{
    for index in indexes {
        if index.covers(host) {
            return true;
        }
    }
    false
}

/// Whether one of them has the host, if there is one.
fn excludes_found(indexes: &[HostIndex<'_>], found: Option<&[u8]>) -> bool
    ensures { IsTrue result ↔ ExcludesFound (members_of indexes.now) (option_copied found.entry) }
{
    match found {
        None => false,
        Some(host) => excludes_host(indexes, host),
    }
}

/// Whether they have none of the hosts.
pub(crate) fn excludes_no_host(indexes: &[HostIndex<'_>], hosts: &[Option<&[u8]>]) -> bool
    ensures { IsTrue result
        ↔ ExcludesNoHost (members_of indexes.now) (map option_copied hosts.now) }
{
    for found in hosts {
        if excludes_found(indexes, *found) {
            return false;
        }
    }
    true
}

/// Whether there is a host in place of each URI.
pub(crate) fn lacks_no_host(hosts: &[Option<&[u8]>]) -> bool
    ensures { IsTrue result ↔ HasEach (map option_copied hosts.now) }
{
    for found in hosts {
        if found.is_none() {
            return false;
        }
    }
    true
}
