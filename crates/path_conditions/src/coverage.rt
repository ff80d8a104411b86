//! The forms of subtrees.

ghost use Rattle.std.specs.Prelude.{◌≡◌, ◌↔◌, IsTrue};
ghost use Rattle.names.specs.GeneralView.{general_name, subtree_base};
ghost use Rattle.names.specs.GeneralCoverage.{is_covered, is_base_inside, is_of_form};
ghost use Rattle.path_conditions.specs.Narrowing.{bases_of, is_in_one_of, are_about, is_inside_one_of, is_processed_base, has_processed};

use names::{Form, Subtree, coverage_laws};

/// Whether the subtree is about names of the form.
pub(crate) fn is_about(base: &Subtree<'_>, form: Form) -> bool
    ensures { result ≡ is_of_form (subtree_base base.now) form }
{
    coverage_laws();
    base.has_form(form)
}

/// Whether one of the subtrees is about names of the form.
pub(crate) fn one_is_about(bases: &[Subtree<'_>], form: Form) -> bool
    ensures { result ≡ are_about (bases_of bases.now) form }
{
    bases.iter().any(|base| is_about(base, form))
}

/// Whether the subtree is of a processed form.
pub(crate) fn is_processed(base: &Subtree<'_>) -> bool
    ensures { result ≡ is_processed_base (subtree_base base.now) }
{
    is_about(base, Form::Directory) || is_about(base, Form::Dns) || is_about(base, Form::Ip)
}

/// Whether one of the subtrees is of a processed form.
pub(crate) fn one_is_processed(bases: &[Subtree<'_>]) -> bool
    ensures { result ≡ has_processed (bases_of bases.now) }
{
    bases.iter().any(|base| is_processed(base))
}
