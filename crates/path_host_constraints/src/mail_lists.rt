//! Bases of constraints on mail addresses, narrowed and joined from certificate to certificate (RFC 5280, 6.1.4 (g)).

ghost use Rattle.std.specs.Prelude.{◌≡◌, ◌↔◌, ◌≤◌, ◌<◌, ◌+◌, ◌^◌, ◌++◌, [], List, IsTrue, IfOk, OnOk, length, map, option_map};
ghost use Rattle.names_hosts.specs.Mail.{MailText, mail_text, mail_names};
ghost use Rattle.names_hosts.specs.MailLists.{HasMail};
ghost use Rattle.path_host_constraints.specs.MailLists.{Enters, TakesMailIf, SelectsMail, NarrowsMail, MailLieIn, PermitsMailIn, PermitsAllMail, PermitsFound, IsNarrowedMail, ExcludesFound, ExcludesNoMail};
ghost use Rattle.path_host_constraints.specs.Lists.{members_of, left_of, changed, size_of, HasEach};
ghost use Rattle.path_host_constraints.specs.Indexes.{with_joined};

use crate::indexes::Joined;
use names_hosts::{MailBase, MailIndex, MailName, mail_laws};
use std::alloc::{AllocError, Global};

/// Whether the base lies in one of these, and in none of those.
fn enters(base: &MailBase<'_>, within: &MailIndex<'_>, except: &MailIndex<'_>) -> bool
    ensures { Enters within.now except.now (mail_names base.now) result }
{
    if !within.holds(base) {
        return false;
    }
    let outside = except.holds(base);
    !outside
}

/// Adds the base if it lies in one of these, and in none of those.
fn take_if<'a>(
    selected: &mut Vec<MailBase<'a>>,
    base: &MailBase<'a>,
    within: &MailIndex<'_>,
    except: &MailIndex<'_>,
) -> Result<(), AllocError>
    ensures takes { OnOk result (TakesMailIf within.now except.now (mail_names base.now)
        (map mail_names selected.old.items) (map mail_names selected.new.items)) }
    ensures fewer { length selected.new.items ≤ length selected.old.items + 1 }
{
    if !enters(base, within, except) {
        return Ok(());
    }
    selected.push(*base)?;
    Ok(())
}

/// The bases of the list that lie in one of these, and in none of those.
fn select<'a>(
    alloc: Global,
    list: &[MailBase<'a>],
    within: &MailIndex<'_>,
    except: &MailIndex<'_>,
) -> Result<Vec<MailBase<'a>>, AllocError>
    ensures selects { IfOk result (λ selected. SelectsMail within.now except.now
        (map mail_names list.now) (map mail_names selected.items)) }
    ensures fewer { IfOk result (λ selected. length selected.items ≤ length list.now) }
{
    mail_laws();
    let mut selected = Vec::new(alloc);
    for base in list {
        take_if(&mut selected, base, within, except)?;
    }
    Ok(selected)
}

/// Whether each of the bases lies in one of these.
fn lie_in(bases: &[MailBase<'_>], within: &MailIndex<'_>) -> bool
    ensures { IsTrue result ↔ MailLieIn within.now (map mail_names bases.now) }
{
    for base in bases {
        if !within.holds(base) {
            return false;
        }
    }
    true
}

/// An index of the bases.
fn index_of<'a>(alloc: Global, bases: &[MailBase<'a>]) -> Result<MailIndex<'a>, AllocError>
    ensures { IfOk result (λ index. index ≡ map mail_names bases.now) }
{
    let list = Vec::from_slice(alloc, bases)?;
    MailIndex::of(alloc, list)
}

/// An index of no bases.
fn no_bases<'a>(alloc: Global) -> Result<MailIndex<'a>, AllocError>
    ensures { IfOk result (λ index. index ≡ []) }
{
    MailIndex::of(alloc, Vec::new(alloc))
}

/// An index of the bases, with those of another.
fn joined<'a>(
    alloc: Global,
    bases: Vec<MailBase<'a>>,
    others: &MailIndex<'a>,
) -> Result<MailIndex<'a>, AllocError>
    ensures { IfOk result (λ index. index ≡ map mail_names bases.entry.items ++ others.now) }
{
    let mut all = bases;
    all.extend_from_slice(others.bases())?;
    MailIndex::of(alloc, all)
}

/// Intersects two lists. The held one stays if each of its bases lies in one that is carried. Else the new one has of each list the bases
/// that lie in one of the other, except those in one that is kept: two bases that share a mail address are nested, so these have just the
/// mail addresses that both lists have.
fn narrow<'a>(
    alloc: Global,
    held: &MailIndex<'a>,
    carried: &[MailBase<'a>],
) -> Result<Option<MailIndex<'a>>, AllocError>
    ensures narrows { IfOk result (λ change. NarrowsMail held.now (map mail_names carried.now)
        (left_of held.now change)) }
    ensures fewer { IfOk result (λ change.
        length (left_of held.now change) ≤ length held.now + length carried.now) }
{
    mail_laws();
    let carried_index = index_of(alloc, carried)?;
    if lie_in(held.bases(), &carried_index) {
        return Ok(None);
    }
    let none = no_bases(alloc)?;
    let kept = select(alloc, held.bases(), &carried_index, &none)?;
    let kept_index = MailIndex::of(alloc, kept)?;
    let entering = select(alloc, carried, held, &kept_index)?;
    let list = joined(alloc, entering, &kept_index)?;
    Ok(Some(list))
}

/// The change of the list behind a certificate that carries permitted bases.
fn narrowed<'a>(
    alloc: Global,
    list: &Option<MailIndex<'a>>,
    carried: &[MailBase<'a>],
) -> Result<Option<MailIndex<'a>>, AllocError>
    ensures narrows { IfOk result (λ change. (name : MailText) →
        PermitsMailIn (changed list.now change) name
        ↔ (PermitsMailIn list.now name × HasMail (map mail_names carried.now) name)) }
    ensures fewer { IfOk result (λ change.
        size_of (changed list.now change) ≤ size_of list.now + length carried.now) }
{
    match list {
        None => {
            let new = index_of(alloc, carried)?;
            Ok(Some(new))
        }
        Some(held) => narrow(alloc, held, carried),
    }
}

/// The new list of what is permitted, if the certificate carries permitted bases. No list permits every mail address.
pub(crate) fn narrow_mail<'a>(
    alloc: Global,
    list: &Option<MailIndex<'a>>,
    carried: &[MailBase<'a>],
) -> Result<Option<MailIndex<'a>>, AllocError>
    ensures narrows { IfOk result (λ change. IsNarrowedMail list.now (map mail_names carried.now)
        (changed list.now change)) }
    ensures fewer { IfOk result (λ change.
        size_of (changed list.now change) ≤ size_of list.now + length carried.now) }
{
    if carried.is_empty() {
        return Ok(None);
    }
    narrowed(alloc, list, carried)
}

/// How many bases the list has.
pub(crate) fn count_mail(list: &Option<MailIndex<'_>>) -> usize
    ensures count { result ≡ size_of list.now }
    ensures small { result < 2 ^ 62 }
{
    match list {
        None => 0,
        Some(list) => list.bases().len(),
    }
}

/// Whether the list, if there is one, has the mail address.
fn permits_mail(list: &Option<MailIndex<'_>>, name: &MailName<'_>) -> bool
    ensures { IsTrue result ↔ PermitsMailIn list.now (mail_text name.now) }
{
    match list {
        None => true,
        Some(list) => list.covers(name),
    }
}

/// Whether it has the mail address, if that is a mailbox.
fn permits_found(list: &Option<MailIndex<'_>>, found: &Option<MailName<'_>>) -> bool
    ensures { IsTrue result ↔ PermitsFound list.now (option_map mail_text found.now) }
{
    match found {
        None => true,
        Some(name) => permits_mail(list, name),
    }
}

/// Whether it has all of them.
pub(crate) fn permits_all_mail(list: &Option<MailIndex<'_>>, names: &[Option<MailName<'_>>]) -> bool
    ensures { IsTrue result ↔ PermitsAllMail list.now (map (option_map mail_text) names.now) }
{
    for found in names {
        if !permits_found(list, found) {
            return false;
        }
    }
    true
}

/// How many of the indexes are left as they are if so many bases come; the others are joined with what comes. The shorter ones go, so that
/// there are few.
fn count_lasting(indexes: &[MailIndex<'_>], coming: usize) -> usize
    ensures { result ≤ length indexes.now }
{
    let mut count = indexes.len();
    let mut behind = coming;
    while count > 0 {
        let last = indexes[count - 1].bases().len();
        if last / 2 >= behind {
            return count;
        }
        behind = behind.saturating_add(last);
        count -= 1;
    }
    0
}

/// The bases of all indexes.
fn bases_of<'a>(alloc: Global, indexes: &[MailIndex<'a>]) -> Result<Vec<MailBase<'a>>, AllocError>
    ensures { IfOk result (λ all. map mail_names all.items ≡ members_of indexes.now) }
{
    let mut all = Vec::new(alloc);
    for index in indexes {
        all.extend_from_slice(index.bases())?;
    }
    Ok(all)
}

/// The index that joins the excluded bases of one more certificate, if it has any, with those of the indexes that do not last.
pub(crate) fn join_mail<'a>(
    alloc: Global,
    indexes: &[MailIndex<'a>],
    more: &[MailBase<'a>],
) -> Result<Option<Joined<MailIndex<'a>>>, AllocError>
    ensures { IfOk result (λ joined. members_of (with_joined joined indexes.now)
        ≡ members_of indexes.now ++ map mail_names more.now) }
{
    if more.is_empty() {
        return Ok(None);
    }
    let lasting = count_lasting(indexes, more.len());
    let mut all = bases_of(alloc, &indexes[lasting..])?;
    all.extend_from_slice(more)?;
    let index = MailIndex::of(alloc, all)?;
    Ok(Some(Joined { lasting, index }))
}

/// Whether one of the indexes has the mail address.
fn excludes_mail(indexes: &[MailIndex<'_>], name: &MailName<'_>) -> bool
    ensures { IsTrue result ↔ HasMail (members_of indexes.now) (mail_text name.now) }
{
    for index in indexes {
        if index.covers(name) {
            return true;
        }
    }
    false
}

/// Whether one of them has the mail address, if that is a mailbox.
fn excludes_found(indexes: &[MailIndex<'_>], found: &Option<MailName<'_>>) -> bool
    ensures { IsTrue result
        ↔ ExcludesFound (members_of indexes.now) (option_map mail_text found.now) }
{
    match found {
        None => false,
        Some(name) => excludes_mail(indexes, name),
    }
}

/// Whether they have none of the mail addresses.
pub(crate) fn excludes_no_mail(indexes: &[MailIndex<'_>], names: &[Option<MailName<'_>>]) -> bool
    ensures { IsTrue result
        ↔ ExcludesNoMail (members_of indexes.now) (map (option_map mail_text) names.now) }
{
    for found in names {
        if excludes_found(indexes, found) {
            return false;
        }
    }
    true
}

/// Whether each of the mail addresses is a mailbox.
pub(crate) fn are_mailboxes(names: &[Option<MailName<'_>>]) -> bool
    ensures { IsTrue result ↔ HasEach (map (option_map mail_text) names.now) }
{
    for found in names {
        if found.is_none() {
            return false;
        }
    }
    true
}
