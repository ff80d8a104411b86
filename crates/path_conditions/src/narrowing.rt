//! Narrowing of lists of subtrees (RFC 5280, 6.1.4 (g)).

ghost use Rattle.std.specs.Prelude.{◌≡◌, IfOk, IsOk, false, true};
ghost use Rattle.names.specs.GeneralView.{subtree_base};
ghost use Rattle.path_conditions.specs.Narrowing.{bases_of, enters, of_form, are_about, AreOfForm, AreKept, AreEntering};
ghost use Rattle.path_conditions.specs.Repetition.{is_held_again, Renews, Narrows};

use crate::coverage::{is_about, one_is_about};
use crate::repetition::repeats_form;
use crate::subtree_list::{SubtreeList, index_of};
use names::{Form, Subtree};
use names_order::Index;
use std::alloc::{AllocError, Global};

/// The subtrees of the form.
fn select<'a>(
    alloc: Global,
    form: Form,
    carried: &[Subtree<'a>],
) -> Result<Vec<Subtree<'a>>, AllocError>
    ensures { IfOk result (AreOfForm form carried.now) }
{
    carried
        .iter()
        .copied()
        .filter(|base| is_about(base, form))
        .collect(alloc)
}

/// The subtrees that are parts of one of the others.
fn keep_parts<'a>(
    alloc: Global,
    held: &[Subtree<'a>],
    carried: &Index<'_>,
) -> Result<Vec<Subtree<'a>>, AllocError>
    ensures { IfOk result (AreKept held.now carried.now) }
{
    held.iter()
        .copied()
        .filter(|base| carried.holds(base))
        .collect(alloc)
}

/// Whether the subtree is of the form, and a part of one that is held but of none that is kept.
fn enters(base: &Subtree<'_>, form: Form, held: &Index<'_>, kept: &Index<'_>) -> bool
    ensures { result ≡ enters form held.now kept.now (subtree_base base.now) }
{
    is_about(base, form) && held.holds(base) && !kept.holds(base)
}

/// The subtrees of the form that are parts of one that is held but of none that is kept.
fn select_entering<'a>(
    alloc: Global,
    form: Form,
    held: &Index<'_>,
    kept: &Index<'_>,
    carried: &[Subtree<'a>],
) -> Result<Vec<Subtree<'a>>, AllocError>
    ensures { IfOk result (AreEntering form held.now kept.now carried.now) }
{
    carried
        .iter()
        .copied()
        .filter(|base| enters(base, form, held, kept))
        .collect(alloc)
}

/// Intersects two lists of subtrees of one form: of each list those inside one of the other, except those inside one that is kept. Two
/// subtrees that share a name are nested, so these hold just the names that both lists hold. If all that are held are kept, as where the
/// lists are equal, none enters, and the list stays. Each subtree is looked for at most three times in an index of the other list.
fn narrow<'a>(
    alloc: Global,
    form: Form,
    held: &SubtreeList<'a>,
    carried: &[Subtree<'a>],
) -> Result<Option<SubtreeList<'a>>, AllocError>
    ensures { IfOk result (Narrows form held.now carried.now) }
{
    let carried_index = index_of(alloc, carried)?;
    let in_order = held.index().subtrees();
    // these are in order too, and so need not be sorted
    let kept_in_order = keep_parts(alloc, in_order, &carried_index)?;
    if kept_in_order.len() == in_order.len() {
        return Ok(None);
    }
    let kept_index = Index::of(alloc, kept_in_order)?;
    let kept = keep_parts(alloc, held.items(), &carried_index)?;
    let entering = select_entering(alloc, form, held.index(), &kept_index, carried)?;
    let list = SubtreeList::joined(alloc, kept, &kept_index, &entering)?;
    Ok(Some(list))
}

/// The list of the subtrees of the form.
fn begin<'a>(
    alloc: Global,
    form: Form,
    carried: &[Subtree<'a>],
) -> Result<SubtreeList<'a>, AllocError>
    ensures { IfOk result (λ list. list ≡ of_form form (bases_of carried.now)) }
{
    let selected = select(alloc, form, carried)?;
    SubtreeList::of(alloc, selected)
}

/// The new list of the form behind a certificate that carries these permitted subtrees, if it changes.
fn narrowed_list<'a>(
    alloc: Global,
    form: Form,
    held: &Option<SubtreeList<'a>>,
    carried: &[Subtree<'a>],
) -> Result<Option<SubtreeList<'a>>, AllocError>
    ensures value { IfOk result (Renews form held.now carried.now) }
    ensures calm { are_about (bases_of carried.now) form ≡ false → IsOk result }
{
    if !one_is_about(carried, form) {
        return Ok(None);
    }
    match held {
        None => Ok(Some(begin(alloc, form, carried)?)),
        Some(held) => narrow(alloc, form, held, carried),
    }
}

/// Whether the certificate carries just the subtrees of the form that are held.
fn is_held_again(form: Form, held: &Option<SubtreeList<'_>>, carried: &[Subtree<'_>]) -> bool
    ensures { result ≡ is_held_again form held.now (bases_of carried.now) }
{
    match held {
        None => false,
        Some(held) => repeats_form(held.items(), form, carried),
    }
}

/// As `narrowed_list`, but a list that is carried again is not built anew: it narrows to itself.
pub(crate) fn narrowed_if_new<'a>(
    alloc: Global,
    form: Form,
    held: &Option<SubtreeList<'a>>,
    carried: &[Subtree<'a>],
) -> Result<Option<SubtreeList<'a>>, AllocError>
    ensures value { IfOk result (Renews form held.now carried.now) }
    ensures calm { are_about (bases_of carried.now) form ≡ false → IsOk result }
    ensures again { is_held_again form held.now (bases_of carried.now) ≡ true → IsOk result }
{
    if is_held_again(form, held, carried) {
        return Ok(None);
    }
    narrowed_list(alloc, form, held, carried)
}
