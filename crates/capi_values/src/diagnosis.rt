//! Why a search in texts finds no path, as numbers.

ghost use Rattle.std.specs.Prelude.{◌≡◌, ◌+◌, ◌<◌, ◌^◌, IfErr, IfOk, length, map};
ghost use Rattle.path.specs.Query.{Accepts};
ghost use Rattle.path_search.specs.WhyNot.{places_of_obstacles};
ghost use Rattle.capi_values.specs.Among.{AreCertificatesJudged};
ghost use Rattle.capi_values.specs.Arrays.{AreWrittenTo};
ghost use Rattle.capi_values.specs.Finding.{HavePlaces};
ghost use Rattle.capi_values.specs.Refusal.{TellsBadCertificate, no_refusal};
ghost use Rattle.capi_values.specs.Searching.{search_certificates};
ghost use Rattle.capi_values.specs.WhyNot.{HasEndNumbers, IsWhyNotOn, TellsWhyNot, TellsWhyNotAnswer, TellsWhyNotOf, bag_numbers, obstacle_numbers, rooms, without_end};

use crate::finding::{GAVE_UP, write};
use crate::refusal::Refusal;
use crate::searching::SearchOfTexts;
use crate::validating::{REFUSED, believing};
use path_search::{Obstacle, WhyNot, why_not};
use relying_questions::why_not_question_laws;
use std::alloc::Global;

const TARGET: u32 = 8;

const END: u32 = 9;

/// A certificate that has the name of an issuer, but cannot stand above the one that it would have issued.
#[derive(Clone, Copy, Debug, PartialEq, Eq, Default)]
#[repr(C)]
pub struct NumberedObstacle {
    /// Its number in the search.
    pub certificate: usize,
    /// The rank of the condition that it does not meet there.
    pub reason: u32,
}

/// Why no path is found, or which certificate is refused. What has no number there is 0.
#[derive(Clone, Copy, Debug, PartialEq, Eq, Default)]
#[repr(C)]
pub struct WhyNotAnswer {
    /// 5 a certificate is refused, 7 the limits are used up, 8 the target is at fault itself, 9 paths end. No call answers 0, so a struct of
    /// zeros is no answer.
    pub why: u32,
    /// The rank of the condition that the target does not meet.
    pub reason: u32,
    /// How many certificates stand above the target at the end that got furthest.
    pub above_count: usize,
    /// How many anchors have the name of the issuer of the top, and another key than the one that signed it.
    pub anchor_count: usize,
    /// How many certificates of the bag have that name.
    pub obstacle_count: usize,
    pub refusal: Refusal,
}

impl NumberedObstacle {
    /// The obstacle, where there are so many anchors.
    fn of(anchors: usize, obstacle: Obstacle) -> NumberedObstacle
        requires { anchors + 1 + obstacle.place < 2 ^ 64 }
        ensures { result ≡ obstacle_numbers anchors obstacle }
    {
        NumberedObstacle {
            certificate: anchors + 1 + obstacle.place,
            reason: u32::from(obstacle.reason.rank()),
        }
    }
}

/// Writes the numbers of the certificates at places of the bag, as many as there is room for, and answers how many there are.
fn write_places(anchors: usize, places: &[usize], room: &mut [usize]) -> usize
    requires { HavePlaces anchors places.now }
    ensures { AreWrittenTo (bag_numbers anchors places.now) room.old room.new result }
{
    let fitting = places.len().min(room.len());
    for index in 0..fitting {
        room[index] = anchors + 1 + places[index];
    }
    places.len()
}

/// The same of obstacles.
fn write_obstacles(anchors: usize, obstacles: &[Obstacle], room: &mut [NumberedObstacle]) -> usize
    requires { HavePlaces anchors (places_of_obstacles obstacles.now) }
    ensures { AreWrittenTo (map (obstacle_numbers anchors) obstacles.now) room.old room.new
        result }
{
    let fitting = obstacles.len().min(room.len());
    for index in 0..fitting {
        room[index] = NumberedObstacle::of(anchors, obstacles[index]);
    }
    obstacles.len()
}

/// An answer that tells of no certificates.
fn without_end(why: u32, reason: u32, refusal: Refusal) -> WhyNotAnswer
    ensures { result ≡ without_end why reason refusal }
{
    WhyNotAnswer {
        why,
        reason,
        refusal,
        ..WhyNotAnswer::default()
    }
}

/// Writes the certificates of an end, and tells why no path is found.
fn tell(
    count: usize,
    found: &Option<WhyNot>,
    above: &mut [usize],
    anchors: &mut [usize],
    obstacles: &mut [NumberedObstacle],
) -> WhyNotAnswer
    requires { HasEndNumbers count found.now }
    ensures tells { TellsWhyNot count result (rooms above.old anchors.old obstacles.old)
        (rooms above.new anchors.new obstacles.new) found.now }
    ensures filled { 0 < result.why }
{
    let none = Refusal::default();
    match found {
        None => without_end(GAVE_UP, 0, none),
        Some(WhyNot::Target(reason)) => without_end(TARGET, u32::from(reason.rank()), none),
        Some(WhyNot::Stuck(stuck)) => WhyNotAnswer {
            why: END,
            reason: 0,
            above_count: write_places(count, &stuck.above, above),
            anchor_count: write(&stuck.anchors, anchors),
            obstacle_count: write_obstacles(count, &stuck.bag, obstacles),
            refusal: none,
        },
    }
}

/// Why the search finds no path, for who accepts the signatures with these fingerprints.
fn why_not_by(
    alloc: Global,
    search: &SearchOfTexts<'_>,
    fingerprints: &[[u8; 32]],
) -> Result<Option<WhyNot>, Refusal>
    ensures finds { IfOk result (IsWhyNotOn search.now fingerprints.now) }
    ensures fits { IfOk result (HasEndNumbers (length search.now.anchors.now)) }
    ensures refuses { IfErr result (TellsBadCertificate (search_certificates search.now)) }
{
    let certificates = search.read(alloc)?;
    let verifier = believing(alloc, fingerprints)?;
    let among = search.among(certificates.as_slice());
    let budget = search.limits.budget();
    Ok(why_not(alloc, &verifier, &among, budget.search)?)
}

/// Why no path to the target is valid (`path_search::why_not`), for who accepts the signatures with these fingerprints: the reason for which
/// the target cannot stand at the end of a path; or where an end of a path that got furthest stands, and who has the name of the issuer of
/// its top; or the first certificate that is refused. Each is read once. Statements do not matter here.
///
/// As many numbers are written to each array as there is room for: of the certificates above the target, from it upward; of the anchors with
/// that name, whose keys did not sign the top; and of the others with that name, each with the first condition that it does not meet there.
/// Only an end is told so; else nothing is written. If a path is valid, the answer is still true of the ends of paths, of which an anchor may
/// then have issued the top.
///
/// Whoever asks `questions_of_search`, has each question judged, and hands in the fingerprints of those that are answered by yes, and of no
/// others, is told why that judge would find no path.
pub fn answer_why_not(
    alloc: Global,
    search: &SearchOfTexts<'_>,
    fingerprints: &[[u8; 32]],
    above: &mut [usize],
    anchors: &mut [usize],
    obstacles: &mut [NumberedObstacle],
) -> WhyNotAnswer
    ensures tells { TellsWhyNotAnswer result search.now fingerprints.now
        (rooms above.old anchors.old obstacles.old)
        (rooms above.new anchors.new obstacles.new) }
    ensures judged { (accepts : Accepts)
        → AreCertificatesJudged accepts search.now fingerprints.now
        → TellsWhyNotOf result accepts search.now (rooms above.old anchors.old obstacles.old)
        (rooms above.new anchors.new obstacles.new) }
    ensures filled { 0 < result.why }
{
    why_not_question_laws();
    match why_not_by(alloc, search, fingerprints) {
        Ok(found) => tell(search.anchors.len(), &found, above, anchors, obstacles),
        Err(refusal) => without_end(REFUSED, 0, refusal),
    }
}
