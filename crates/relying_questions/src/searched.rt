//! The certificates of a search, and the texts that they stand in.

ghost use Rattle.std.specs.Prelude.{◌≡◌};
ghost use Rattle.path_issuers.specs.Links.{certificate_at};
ghost use Rattle.path_issuers.specs.Questions.{IsThere, issuer_at};
ghost use Rattle.path_issuers.specs.View.{seen_search};
ghost use Rattle.relying_questions.specs.Issuers.{issuer_in, text_at, text_of};
ghost use Rattle.relying_questions.specs.Places.{IsPlaced, SearchStands, Texts, placed_certificate};

use crate::part::WhichText;
use crate::placed::Placed;
use path_issuers::{Issuer, Search};

/// The number of the text of the certificate at a place of the bag; of the target, if there is none.
fn text_at(search: &Search<'_, '_>, place: usize) -> usize
    ensures { result ≡ text_at (seen_search search.now) place }
{
    let target = search.anchors.len();
    if place < search.bag.len() {
        target + 1 + place
    } else {
        target
    }
}

/// The number of the text of an issuer.
pub(crate) fn text_of(search: &Search<'_, '_>, issuer: Issuer) -> usize
    ensures { result ≡ text_of (seen_search search.now) issuer }
{
    match issuer {
        Issuer::Anchor(place) => place,
        Issuer::Bag(place) => text_at(search, place),
    }
}

/// The issuer whose text has the number.
pub(crate) fn issuer_in(search: &Search<'_, '_>, number: usize) -> Issuer
    ensures { result ≡ issuer_in (seen_search search.now) number }
{
    let target = search.anchors.len();
    if number <= target {
        Issuer::Anchor(number)
    } else {
        Issuer::Bag(number - (target + 1))
    }
}

/// The certificate at a place of the bag; the target, if there is none.
pub(crate) fn certificate_at<'p, 'c>(search: &Search<'p, 'c>, place: usize) -> Placed<'p, 'c>
    ensures certificate { placed_certificate result
        ≡ certificate_at (seen_search search.now) place }
    ensures places { (texts : Texts) → SearchStands texts (seen_search search.now)
        → IsPlaced texts result }
{
    Placed {
        certificate: search.certificate_at(place),
        source: WhichText::Certificate(text_at(search, place)),
    }
}

/// The certificate of an issuer.
pub(crate) fn issuer_at<'p, 'c>(search: &Search<'p, 'c>, issuer: Issuer) -> Placed<'p, 'c>
    ensures certificate { placed_certificate result ≡ issuer_at (seen_search search.now) issuer }
    ensures places { (texts : Texts) → SearchStands texts (seen_search search.now)
        → IsThere (seen_search search.now) issuer → IsPlaced texts result }
{
    Placed {
        certificate: search.issuer_at(issuer),
        source: WhichText::Certificate(text_of(search, issuer)),
    }
}
