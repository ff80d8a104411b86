//! Who stands as an issuer in the questions of a search.

ghost use Rattle.std.specs.Prelude.{◌≡◌, ◌+◌, IfOk, length, map};
ghost use Rattle.path_issuers.specs.Questions.{issuer_at};
ghost use Rattle.path_issuers.specs.View.{seen_search};
ghost use Rattle.relying_questions.specs.Issuers.{AreCertificatesOfIssuers, AreMarks, IssuersAreThere, MarkedAreThere, issuers_marked};
ghost use Rattle.relying_questions.specs.Places.{ArePlaced, SearchStands, Texts, placed_certificates};

use crate::placed::Placed;
use crate::searched::{issuer_at, issuer_in, text_of};
use path_issuers::{Search, SearchQuestion};
use std::alloc::{AllocError, Global};

/// Marks the texts of the issuers of the pairs.
fn mark_issuers(
    alloc: Global,
    search: &Search<'_, '_>,
    pairs: &[SearchQuestion],
) -> Result<Vec<bool>, AllocError>
    requires { IssuersAreThere (seen_search search.now) pairs.now }
    ensures { IfOk result (λ marks. AreMarks (seen_search search.now) pairs.now marks.items) }
{
    let count = search.anchors.len() + 1 + search.bag.len();
    let mut marks = vec![in alloc; false; count]?;
    for pair in pairs {
        marks[text_of(search, pair.issuer)] = true;
    }
    Ok(marks)
}

/// The issuers whose texts are marked, in order.
fn marked_issuers<'p, 'c>(
    alloc: Global,
    search: &Search<'p, 'c>,
    marks: &[bool],
) -> Result<Vec<Placed<'p, 'c>>, AllocError>
    ensures certificates { IfOk result (λ issuers. placed_certificates issuers.items
        ≡ map (issuer_at (seen_search search.now))
        (issuers_marked (seen_search search.now) marks.now)) }
    ensures places { IfOk result (λ issuers. (texts : Texts)
        → SearchStands texts (seen_search search.now)
        → MarkedAreThere (seen_search search.now) marks.now
        → ArePlaced texts issuers.items) }
{
    let mut issuers = Vec::new(alloc);
    for (number, marked) in marks.iter().enumerate() {
        if *marked {
            issuers.push(issuer_at(search, issuer_in(search, number)))?;
        }
    }
    Ok(issuers)
}

/// Each certificate that stands as the issuer in one of the pairs, once: the anchors by their places, then those of the bag.
pub(crate) fn issuers_of<'p, 'c>(
    alloc: Global,
    search: &Search<'p, 'c>,
    pairs: &[SearchQuestion],
) -> Result<Vec<Placed<'p, 'c>>, AllocError>
    requires { IssuersAreThere (seen_search search.now) pairs.now }
    ensures certificates { IfOk result (λ issuers.
        AreCertificatesOfIssuers (seen_search search.now) pairs.now
        (placed_certificates issuers.items)) }
    ensures places { IfOk result (λ issuers. (texts : Texts)
        → SearchStands texts (seen_search search.now) → ArePlaced texts issuers.items) }
{
    let marks = mark_issuers(alloc, search, pairs)?;
    marked_issuers(alloc, search, marks.as_slice())
}
