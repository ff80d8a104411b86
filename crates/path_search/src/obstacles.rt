//! Who has the name of the issuer of a tail's top, and why it cannot stand above.

ghost use Rattle.std.specs.Prelude.{◌≡◌, ◌↔◌, ◌++◌, ◌<◌, IfOk, IfSome, IsTrue, OnOk, Contains, length, map};
ghost use Rattle.std.specs.List.{All};
ghost use Rattle.path.specs.Query.{Accepts};
ghost use Rattle.cert.specs.Certificate.{seen_certificate};
ghost use Rattle.path_issuers.specs.View.{seen_search};
ghost use Rattle.path_issuers.specs.Asking.{ArePicked, IsWithin};
ghost use Rattle.path_search.specs.Collecting.{IsFurthest};
ghost use Rattle.path_issuers.specs.Links.{certificate_at};
ghost use Rattle.path_issuers.specs.Lists.{lists_of};
ghost use Rattle.path_issuers.specs.Upward.{AreSigners};
ghost use Rattle.path_search.specs.Obstacles.{AreUnmetAt, MeetsBySigners, obstacle_of};
ghost use Rattle.path_search.specs.WhyNot.{AreObstacles, AreThePlaces, FindsUnmet, IsAnchorInTheWay, IsNamedAmong};

use crate::ground::Ground;
use crate::tail::Tail;
use cert::Certificate;
use path::Reason;
use path_issuers::{Search, Sought, add_if, list_at, pick};
use path_verifiers::Verifier;
use std::alloc::{AllocError, Global};

/// A certificate that has the name of an issuer, but cannot stand above the one that it would have issued.
#[derive(Clone, Copy, Debug, PartialEq, Eq)]
pub struct Obstacle {
    /// Its place in the bag.
    pub place: usize,
    /// The condition of the least rank that it does not meet there.
    pub reason: Reason,
}

/// The places of the certificates that have the name of the issuer of another one.
fn places_named(
    alloc: Global,
    certificates: &[Certificate<'_>],
    issued: &Certificate<'_>,
) -> Result<Vec<usize>, AllocError>
    ensures { IfOk result (λ named. AreThePlaces
        (IsNamedAmong (map seen_certificate certificates.now) (seen_certificate issued.now))
        named.items) }
{
    let mut named = Vec::new(alloc);
    for (place, certificate) in certificates.iter().enumerate() {
        add_if(
            &mut named,
            place,
            issued.issuer.matches(&certificate.subject),
        )?;
    }
    Ok(named)
}

/// Whether the place is among the others.
fn is_among(places: &[usize], place: usize) -> bool
    ensures { IsTrue result ↔ Contains places.now place }
{
    places.contains(&place)
}

/// Of the places, those that are not among the others.
fn without(alloc: Global, places: &[usize], others: &[usize]) -> Result<Vec<usize>, AllocError>
    ensures { IfOk result (λ left.
        ArePicked (λ place. ¬ Contains others.now place) places.now left.items) }
{
    let mut left = Vec::new(alloc);
    for place in places {
        add_if(&mut left, *place, !is_among(others, *place))?;
    }
    Ok(left)
}

/// The anchors that have the name of the issuer of the certificate at the place, and whose keys do not accept its signature. `None` if the
/// questions that are left do not suffice.
pub(crate) fn anchors_in_the_way<V: Verifier>(
    alloc: Global,
    verifier: &V,
    search: &Search<'_, '_>,
    left: &mut usize,
    top: usize,
) -> Result<Option<Vec<usize>>, AllocError>
    ensures anchors { IfOk result (λ found. IfSome found (λ anchors.
        AreThePlaces (IsAnchorInTheWay (V.accepts verifier.now) (seen_search search.now)
        (certificate_at (seen_search search.now) top)) anchors.items)) }
    ensures spent { IfOk result (λ found.
        IsWithin (length search.now.anchors.now) left.old left.new found) }
{
    let named = places_named(alloc, search.anchors, search.certificate_at(top))?;
    let sought = Sought::AnchorsOf(top);
    let Some(issued) = pick(alloc, verifier, search, left, sought, &named)? else {
        return Ok(None);
    };
    Ok(Some(without(alloc, &named, &issued)?))
}

/// Adds a place, if its certificate does not meet a condition.
fn add_unmet(
    obstacles: &mut Vec<Obstacle>,
    place: usize,
    unmet: Option<Reason>,
) -> Result<(), AllocError>
    ensures { OnOk result (obstacles.new.items
        ≡ obstacles.old.items ++ obstacle_of place unmet) }
{
    if let Some(reason) = unmet {
        obstacles.push(Obstacle { place, reason })?;
    }
    Ok(())
}

impl<'s, 'p, 'c> Ground<'s, 'p, 'c> {
    /// The first condition that the certificate at the place does not meet above the tail, whose top these issued.
    fn unmet_at(&self, above: &[usize], signers: &[usize], place: usize) -> Option<Reason>
        requires { place < length self.now.search.now.bag.now }
        ensures { FindsUnmet (MeetsBySigners (seen_search self.now.search.now) above.now
            signers.now place) result }
    {
        let tail = Tail {
            bag: self.search.bag,
            target: self.search.target,
            above,
        };
        let signed = is_among(signers, place);
        self.authorities[place].unmet_above(self.search, &tail, signed)
    }

    /// For each of the places, the first condition that the certificate there does not meet above the tail.
    fn obstacles_at(
        &self,
        alloc: Global,
        above: &[usize],
        signers: &[usize],
        places: &[usize],
    ) -> Result<Vec<Obstacle>, AllocError>
        requires { All (λ place. place < length self.now.search.now.bag.now) places.now }
        ensures { IfOk result (λ obstacles. AreUnmetAt (seen_search self.now.search.now) above.now
            signers.now places.now obstacles.items) }
    {
        let mut obstacles = Vec::new(alloc);
        for place in places {
            let unmet = self.unmet_at(above, signers, *place);
            add_unmet(&mut obstacles, *place, unmet)?;
        }
        Ok(obstacles)
    }

    /// For each certificate of the bag that has the name of the issuer of the top, the first condition that it does not meet above the tail.
    pub(crate) fn obstacles(
        &self,
        alloc: Global,
        above: &[usize],
        signers: &[Vec<usize>],
    ) -> Result<Vec<Obstacle>, AllocError>
        ensures { IfOk result (λ obstacles. (accepts : Accepts)
            → AreSigners accepts (seen_search self.now.search.now) (lists_of signers.now)
            → IsFurthest accepts (seen_search self.now.search.now) above.now
            → AreObstacles accepts (seen_search self.now.search.now) above.now obstacles.items) }
    {
        let top = self.top(above);
        let named = places_named(alloc, self.search.bag, self.search.certificate_at(top))?;
        self.obstacles_at(alloc, above, list_at(signers, top), &named)
    }
}
