//! The tails that a walk looks at, one after the other.

ghost use Rattle.std.specs.Prelude.{◌≡◌, ◌++◌, ◌∷◌, [], IfErr, IfOk};
ghost use Rattle.path_search.specs.Queue.{StandsFirst, places_of};

use std::alloc::{AllocError, Global};

/// Tails, shorter ones first, each given by the places of its certificates above the target; and where a walk over them stands.
#[derive(Drop)]
pub(crate) struct Queue {
    pub(crate) tails: Vec<Vec<usize>>,
    /// How many tails are done with.
    pub(crate) index: usize,
    /// How many of the anchors above the next tail were handed out.
    pub(crate) number: usize,
    /// How many of the certificates above it were tried.
    pub(crate) tried: usize,
}

impl Queue {
    /// A walk stands at the first of the tails.
    pub(crate) fn new(tails: Vec<Vec<usize>>) -> Queue
        ensures { StandsFirst tails result }
    {
        Queue {
            tails,
            index: 0,
            number: 0,
            tried: 0,
        }
    }
}

/// The places, and one more.
fn joined(alloc: Global, above: &[usize], place: usize) -> Result<Vec<usize>, AllocError>
    ensures { IfOk result (λ tail. tail.items ≡ above.now ++ place ∷ []) }
{
    let mut tail = Vec::with_capacity(alloc, above.len() + 1)?;
    tail.extend_from_slice(above)?;
    tail.push(place)?;
    Ok(tail)
}

/// Puts the tail with a certificate more behind the others.
pub(crate) fn push_above(
    alloc: Global,
    tails: &mut Vec<Vec<usize>>,
    above: &[usize],
    place: usize,
) -> Result<(), AllocError>
    ensures pushed { IfOk result (λ done. places_of tails.new
        ≡ places_of tails.old ++ (above.now ++ place ∷ []) ∷ []) }
    ensures kept { IfErr result (λ e. places_of tails.new ≡ places_of tails.old) }
{
    tails.push(joined(alloc, above, place)?)?;
    Ok(())
}
