//! Sets of forms of names that are not processed.

ghost use Rattle.std.specs.Prelude.{◌≡◌, ◌↔◌, ℕ, IsTrue, false, map};
ghost use Rattle.std.specs.List.{list_any};
ghost use Rattle.names.specs.GeneralView.{general_name, name_contents, subtree_base};
ghost use Rattle.names.specs.DistinguishedName.{HasKind};
ghost use Rattle.cert.specs.Certificate.{seen_certificate};
ghost use Rattle.cert.specs.NameConstraints.{seen_name_constraints};
ghost use Rattle.path_conditions.specs.NamesOf.{email_address};
ghost use Rattle.path_conditions.specs.Constraints.{has_number, has_form_of, BearsOneOf, AddsForm, AddsForms, AddsFormsOf, HasFormOfEmail};
ghost use Rattle.path_conditions.specs.Narrowing.{bases_of};

use asn::Oid;
use cert::{Certificate, NameConstraints};
use names::{Form, General, Name, Subtree, coverage_laws};

/// id-emailAddress, 1.2.840.113549.1.9.1
const EMAIL_ADDRESS: &[u8] = b"\x2A\x86\x48\x86\xF7\x0D\x01\x09\x01";

/// The form of rfc822Name.
const RFC822_NAME: u8 = 1;

/// Whether the name has an emailAddress.
fn has_email_address(subject: Name<'_>) -> bool
    ensures { IsTrue result ↔ HasKind email_address (name_contents subject.entry).rdns }
{
    subject.has(Oid::new(EMAIL_ADDRESS))
}

/// A set of forms, by the numbers of their tags.
#[derive(Clone, Copy)]
pub struct FormSet {
    numbers: [bool; 256],
}

impl FormSet {
    /// The empty set.
    pub fn new() -> FormSet
        ensures { (number : ℕ) → has_number result number ≡ false }
    {
        FormSet {
            numbers: [false; 256],
        }
    }

    /// Whether the form with the number is in the set.
    fn has(&self, number: u8) -> bool
        ensures { result ≡ has_number self.now number }
    {
        self.numbers[usize::from(number)]
    }

    /// Whether the form of the name is in the set.
    fn has_form_of(&self, name: &General<'_>) -> bool
        ensures { result ≡ has_form_of self.now (general_name name.now) }
    {
        match name {
            General::Other(number, _) => self.has(*number),
            _ => false,
        }
    }

    /// Puts the form of the subtree into the set, if it is not processed.
    fn insert_form(&mut self, base: &Subtree<'_>)
        ensures { AddsForm (subtree_base base.now) self.old self.new }
    {
        coverage_laws();
        if let Form::Other(number) = base.form() {
            self.numbers[usize::from(number)] = true;
        }
    }

    /// Puts the forms of the subtrees that are not processed into the set.
    fn insert_forms(&mut self, bases: &[Subtree<'_>])
        ensures { AddsForms (bases_of bases.now) self.old self.new }
    {
        for base in bases {
            self.insert_form(base);
        }
    }

    /// Puts the forms of the subtrees that a certificate carries, permitted and excluded, into the set, if they are not processed.
    pub fn insert_forms_of(&mut self, carried: &NameConstraints<'_>)
        ensures { AddsFormsOf (seen_name_constraints carried.now) self.old self.new }
    {
        self.insert_forms(&carried.permitted);
        self.insert_forms(&carried.excluded);
    }

    /// Whether a name has a form of the set.
    fn has_form_of_one(&self, names: &[General<'_>]) -> bool
        ensures { result ≡ list_any (has_form_of self.now) (map general_name names.now) }
    {
        names.iter().any(|name| self.has_form_of(name))
    }

    /// Whether the form of rfc822Name is in the set, and the subject has an emailAddress.
    fn has_form_of_subject(&self, subject: Name<'_>) -> bool
        ensures { IsTrue result ↔ HasFormOfEmail self.now (name_contents subject.entry) }
    {
        self.has(RFC822_NAME) && has_email_address(subject)
    }

    /// Whether the certificate bears a name of a form of the set. An emailAddress in the subject counts as an rfc822Name.
    pub fn has_form_of_name_of(&self, certificate: &Certificate<'_>) -> bool
        ensures { IsTrue result ↔ BearsOneOf self.now (seen_certificate certificate.now) }
    {
        self.has_form_of_subject(certificate.subject)
            || self.has_form_of_one(&certificate.extensions.alternative_names)
    }
}
