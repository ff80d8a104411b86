//! Which names lead to the target.

ghost use Rattle.std.specs.Prelude.{◌≡◌, ◌+◌, ◌<◌, IfOk, OnOk, length, vec_len, ℕ};
ghost use Rattle.std.specs.List.{All, Contains};
ghost use Rattle.path_issuers.specs.Frontier.{Grows, GrowsBy};
ghost use Rattle.path_issuers.specs.Wanting.{IsIssuerOf, SeesIssuers};
ghost use Rattle.path_issuers.specs.Naming.{AreWanted};

use crate::frontier::Frontier;
use crate::lists::{list_at, number_at, places_by_number};
use std::alloc::{AllocError, Global};

/// Sees the names of the issuers of certificates.
fn see_issuers(
    frontier: &mut Frontier,
    issuers: &[usize],
    places: &[usize],
) -> Result<(), AllocError>
    ensures grows { OnOk result (Grows frontier.old frontier.new) }
    ensures seen { OnOk result (SeesIssuers issuers.now places.now frontier.old frontier.new) }
    ensures only { OnOk result
        (GrowsBy (IsIssuerOf issuers.now places.now) frontier.old frontier.new) }
{
    for place in places {
        frontier.see(number_at(issuers, *place))?;
    }
    Ok(())
}

/// Which names are wanted: that of the target's issuer, and that of the issuer of each certificate whose own name is.
pub(crate) fn wanted_names(
    alloc: Global,
    subjects: &[usize],
    issuers: &[usize],
    count: usize,
) -> Result<Vec<bool>, AllocError>
    requires subjects { All (λ number. number < count) subjects.now }
    requires issuers { All (λ number. number < count) issuers.now }
    requires more { length subjects.now < length issuers.now }
    ensures { IfOk result (λ wanted. AreWanted subjects.now issuers.now wanted.items) }
{
    let by_subject = places_by_number(alloc, subjects, count)?;
    let mut frontier = Frontier::new(alloc, count)?;
    frontier.see(number_at(issuers, subjects.len()))?;
    while let Some(number) = frontier.next() {
        see_issuers(&mut frontier, issuers, list_at(&by_subject, number))?;
    }
    Ok(frontier.into_seen())
}
