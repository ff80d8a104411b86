//! Subtrees of name constraints (RFC 5280, 4.2.1.10).

ghost use Rattle.std.specs.Prelude.{◌≡◌, ◌↔◌, IsTrue};
ghost use Rattle.names.specs.GeneralSubtree.{form_of, IsInSubtree, is_in_subtree, is_subtree_inside, has_form, SubtreeTestIsExact, InsideIsSound, SharedIsNested, FormIsKept, FormIsProcessed, FormTestIsExact};

use crate::dns::Domain;
use crate::general::{Form, General};
use crate::ip::IpRange;
use names_distinguished::Name;

/// The base of a subtree that was read.
#[derive(Clone, Copy)]
pub enum Subtree<'a> {
    /// The names within this one.
    Directory(Name<'a>),
    /// The DNS names of a domain.
    Dns(Domain<'a>),
    /// The IP addresses of a range.
    Ip(IpRange<'a>),
    /// A base of another form, which is not processed: the number of its tag, and its contents.
    Other(u8, &'a [u8]),
}

impl Subtree<'_> {
    /// The form of the names that the subtree is about.
    pub fn form(&self) -> Form
        ensures { result ≡ form_of self.now }
    {
        match self {
            Subtree::Directory(_) => Form::Directory,
            Subtree::Dns(_) => Form::Dns,
            Subtree::Ip(_) => Form::Ip,
            Subtree::Other(number, _) => Form::Other(*number),
        }
    }

    /// Whether the subtree is about names of the form.
    #[tactic(auto, unfolding(crate::specs::GeneralSubtree::has_form))]
    pub fn has_form(&self, form: Form) -> bool
        ensures decides { IsTrue result ↔ (form_of self.now ≡ form) }
        ensures test { result ≡ has_form self.now form }
    {
        match (self, form) {
            (Subtree::Directory(_), Form::Directory) => true,
            (Subtree::Dns(_), Form::Dns) => true,
            (Subtree::Ip(_), Form::Ip) => true,
            (Subtree::Other(number, _), Form::Other(wanted)) => *number == wanted,
            _ => false,
        }
    }

    /// Whether the name lies in the subtree. None lies in a subtree of a form that is not processed.
    #[tactic(auto, unfolding(crate::specs::GeneralSubtree::is_in_subtree))]
    pub fn covers(&self, name: &General<'_>) -> bool
        ensures decides { IsTrue result ↔ IsInSubtree name.now self.now }
        ensures test { result ≡ is_in_subtree name.now self.now }
    {
        match (self, name) {
            (Subtree::Directory(base), General::Directory(name)) => name.within(base),
            (Subtree::Dns(domain), General::Dns(name)) => domain.covers(name),
            (Subtree::Ip(range), General::Ip(address)) => range.covers(address),
            _ => false,
        }
    }

    /// Whether the subtree lies in the other. Of two subtrees of one processed form that share a name, one is inside the other.
    #[tactic(auto, unfolding(crate::specs::GeneralSubtree::is_subtree_inside))]
    pub fn inside(&self, other: &Subtree<'_>) -> bool
        ensures { result ≡ is_subtree_inside self.now other.now }
    {
        match (self, other) {
            (Subtree::Directory(inner), Subtree::Directory(outer)) => inner.within(outer),
            (Subtree::Dns(inner), Subtree::Dns(outer)) => inner.inside(outer),
            (Subtree::Ip(inner), Subtree::Ip(outer)) => inner.inside(outer),
            _ => false,
        }
    }
}

/// The tests decide the relations; `inside` is sound; two subtrees that share a name are nested; and a name lies only in subtrees of its
/// own form, which is a processed one.
pub fn subtree_laws()
    ensures test { SubtreeTestIsExact }
    ensures sound { InsideIsSound }
    ensures nested { SharedIsNested }
    ensures form { FormIsKept }
    ensures processed { FormIsProcessed }
    ensures has_form { FormTestIsExact }
{}
