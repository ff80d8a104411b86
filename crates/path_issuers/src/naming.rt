//! Who has the name of whose issuer.

ghost use Rattle.std.specs.Prelude.{◌≡◌, ◌+◌, ◌<◌, IfOk, OnOk, length, map, ℕ};
ghost use Rattle.std.specs.List.{All};
ghost use Rattle.path_issuers.specs.View.{seen_search};
ghost use Rattle.path_issuers.specs.Naming.{AddsKeys, AreInUse, HasKeysOf, IsNaming, anchors_naming, is_wanted, issuer_key, issuer_numbers, named_by, subject_key, subject_number};

use crate::keys::Keys;
use crate::lists::{list_at, number_at, places_by_number};
use crate::search::Search;
use crate::wanted::wanted_names;
use cert::Certificate;
use names::key_laws;
use std::alloc::{AllocError, Global};

/// Names by their numbers: names that match have one number.
#[derive(Drop)]
pub(crate) struct Naming {
    /// The number that no name has; those of names are less.
    none: usize,
    /// Of the name of each certificate of the bag.
    subjects: Vec<usize>,
    /// Of the name of the issuer of each, and of the target behind them. A certificate from which no path leads to the target by names
    /// has none.
    issuers: Vec<usize>,
    /// For each number, the certificates whose issuer has that name.
    by_issuer: Vec<Vec<usize>>,
    /// For each number, the anchors that have that name.
    by_anchor: Vec<Vec<usize>>,
}

/// Adds the keys of the names of certificates.
fn add_subjects(
    alloc: Global,
    keys: &mut Vec<Vec<u8>>,
    certificates: &[Certificate<'_>],
) -> Result<(), AllocError>
    ensures { OnOk result (AddsKeys subject_key certificates.now keys.old.items keys.new.items) }
{
    for certificate in certificates {
        keys.push(certificate.subject.key(alloc)?)?;
    }
    Ok(())
}

/// Adds the keys of the names of their issuers.
fn add_issuers(
    alloc: Global,
    keys: &mut Vec<Vec<u8>>,
    certificates: &[Certificate<'_>],
) -> Result<(), AllocError>
    ensures { OnOk result (AddsKeys issuer_key certificates.now keys.old.items keys.new.items) }
{
    for certificate in certificates {
        keys.push(certificate.issuer.key(alloc)?)?;
    }
    Ok(())
}

/// The keys of all names that are compared.
fn keys_of(alloc: Global, search: &Search<'_, '_>) -> Result<Keys, AllocError>
    ensures { IfOk result (λ keys. HasKeysOf search.now keys.sorted.items) }
{
    let mut keys = Vec::new(alloc);
    add_subjects(alloc, &mut keys, search.anchors)?;
    add_subjects(alloc, &mut keys, search.bag)?;
    add_issuers(alloc, &mut keys, search.bag)?;
    keys.push(search.target.issuer.key(alloc)?)?;
    Keys::new(keys)
}

/// The numbers of the names of certificates.
fn subject_numbers(
    alloc: Global,
    keys: &Keys,
    certificates: &[Certificate<'_>],
) -> Result<Vec<usize>, AllocError>
    ensures { IfOk result (λ numbers.
        numbers.items ≡ map (subject_number keys.now.sorted.items) certificates.now) }
{
    let mut numbers = Vec::new(alloc);
    for certificate in certificates {
        numbers.push(keys.number_of(alloc, &certificate.subject)?)?;
    }
    Ok(numbers)
}

/// The numbers of the names of the issuers of the bag and of the target.
fn issuer_numbers(
    alloc: Global,
    keys: &Keys,
    search: &Search<'_, '_>,
) -> Result<Vec<usize>, AllocError>
    ensures { IfOk result (λ numbers.
        numbers.items ≡ issuer_numbers keys.now.sorted.items search.now) }
{
    let mut numbers = Vec::new(alloc);
    for certificate in search.bag {
        numbers.push(keys.number_of(alloc, &certificate.issuer)?)?;
    }
    numbers.push(keys.number_of(alloc, &search.target.issuer)?)?;
    Ok(numbers)
}

/// Whether the name of the certificate is wanted, or it is the target.
fn is_wanted(subjects: &[usize], wanted: &[bool], place: usize) -> bool
    ensures { result ≡ is_wanted subjects.now wanted.now place }
{
    match subjects.get(place) {
        Some(number) => wanted.get(*number) == Some(&true),
        None => true,
    }
}

/// The numbers of issuers, and for a certificate that is not wanted the number that no name has.
fn issuers_in_use(
    alloc: Global,
    subjects: &[usize],
    issuers: &[usize],
    wanted: &[bool],
    none: usize,
) -> Result<Vec<usize>, AllocError>
    ensures { IfOk result (λ used.
        AreInUse subjects.now issuers.now wanted.now none used.items) }
{
    let mut used = Vec::new(alloc);
    for (place, issuer) in issuers.iter().enumerate() {
        if is_wanted(subjects, wanted, place) {
            used.push(*issuer)?;
        } else {
            used.push(none)?;
        }
    }
    Ok(used)
}

impl Naming {
    /// Numbers the names.
    pub(crate) fn new(alloc: Global, search: &Search<'_, '_>) -> Result<Naming, AllocError>
        ensures { IfOk result (λ naming. IsNaming (seen_search search.now) naming) }
    {
        key_laws();
        let keys = keys_of(alloc, search)?;
        let none = keys.count() + 1;
        let subjects = subject_numbers(alloc, &keys, search.bag)?;
        let issuers = issuer_numbers(alloc, &keys, search)?;
        let wanted = wanted_names(alloc, &subjects, &issuers, none)?;
        let used = issuers_in_use(alloc, &subjects, &issuers, &wanted, none)?;
        let anchors = subject_numbers(alloc, &keys, search.anchors)?;
        Ok(Naming {
            none,
            subjects,
            by_issuer: places_by_number(alloc, &used, none + 1)?,
            issuers: used,
            by_anchor: places_by_number(alloc, &anchors, none + 1)?,
        })
    }

    /// Those that lead to the target by names, and whose issuer has the name of the certificate at the place.
    pub(crate) fn named_by(&self, place: usize) -> &[usize]
        ensures { result.now ≡ named_by self.now place }
    {
        list_at(&self.by_issuer, number_at(&self.subjects, place))
    }

    /// The anchors that have the name of the issuer of the certificate at the place; none if it does not lead to the target by names.
    pub(crate) fn anchors_naming(&self, place: usize) -> &[usize]
        ensures { result.now ≡ anchors_naming self.now place }
    {
        list_at(&self.by_anchor, number_at(&self.issuers, place))
    }
}
