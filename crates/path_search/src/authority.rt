//! Certificates that stand above others in a path, with their name constraints at hand.

ghost use Rattle.std.specs.Prelude.{◌≡◌, ◌↔◌, IfOk, IsOk, IsTrue};
ghost use Rattle.std.specs.List.{AllByRecursion};
ghost use Rattle.cert.specs.Certificate.{seen_certificate};
ghost use Rattle.path_conditions.specs.Constraints.{HasNoProcessed};
ghost use Rattle.path_search.specs.Authority.{AdmitNamesIn, AdmitNamesOfOther, FitsAbove, seen_above, seen_tail};
ghost use Rattle.path.specs.Conditions.{ConstrainNoOtherForm, ExcludeNoName, PermitNames};
ghost use Rattle.path_issuers.specs.Factors.{AdmitNames, AdmitNamesBelow, AllowsLength, HoldsOfNamed, IsRightAbove};

use crate::tail::Tail;
use cert::Certificate;
use path::Options;
use path_conditions::{Constraints, FormSet, path_length};
use path_issuers::{is_right_as_authority, issues};
use path_verifiers::Verifier;
use std::alloc::{AllocError, Global};
use std::marker::Model;

/// In which respect name constraints let names pass.
#[derive(Clone, Copy, Debug, PartialEq, Eq)]
pub(crate) enum NameCheck {
    /// In each of the others.
    Each,
    /// They lie in the permitted subtrees (RFC 5280, 6.1.3 (b)).
    Permitted,
    /// They lie in no excluded subtree (6.1.3 (c)).
    NotExcluded,
    /// They have no form that is constrained but not processed (4.2.1.10).
    Processed,
}

/// A certificate with its name constraints, in which names are looked for as a validation does (RFC 5280, 4.2.1.10).
#[derive(Drop)]
pub struct Authority<'p, 'c> {
    pub(crate) certificate: &'p Certificate<'c>,
    constraints: Constraints<'c>,
    forms: FormSet,
}

impl<'p, 'c> Model for Authority<'p, 'c> {
    ghost use Rattle.std.specs.Coded.{codes};
    ghost use Rattle.cert.specs.Certificate.{Certificate, seen_certificate};
    ghost use Rattle.path_conditions.specs.Codes.{rdn_code};
    ghost use Rattle.path_conditions.specs.Constraints.{seen_constraints};
    ghost use Rattle.path_search.specs.Authority.{AnswersFor};

    ghost Value = { Certificate };

    ghost coded = { Prim.hlevel (codes, rdn_code) };

    ghost view = { λ a. seen_certificate a.certificate.now };

    ghost invariant = { λ a. AnswersFor (seen_certificate a.certificate.now) (seen_constraints a.constraints)
        a.forms };
}

impl<'p, 'c> Authority<'p, 'c> {
    /// Puts the name constraints of the certificate in order. Memory is taken only if it carries a subtree of a form that is processed.
    pub fn new(
        alloc: Global,
        certificate: &'p Certificate<'c>,
    ) -> Result<Authority<'p, 'c>, AllocError>
        ensures ok { IfOk result (λ authority. authority ≡ seen_certificate certificate.now) }
        ensures calm { HasNoProcessed certificate.now → IsOk result }
    {
        let mut constraints = Constraints::none(alloc);
        constraints.narrow(alloc, certificate)?;
        let mut forms = FormSet::new();
        forms.insert_forms_of(&certificate.extensions.name_constraints);
        Ok(Authority {
            certificate,
            constraints,
            forms,
        })
    }

    /// Whether its permitted subtrees admit the names of the certificate (RFC 5280, 6.1.3 (b)).
    fn permits_names_of(&self, certificate: &Certificate<'_>) -> bool
        ensures { IsTrue result ↔ PermitNames self.now (seen_certificate certificate.now) }
    {
        self.constraints.permits_names_of(certificate)
    }

    /// Whether its excluded subtrees do (RFC 5280, 6.1.3 (c)).
    fn excludes_no_name_of(&self, certificate: &Certificate<'_>) -> bool
        ensures { IsTrue result ↔ ExcludeNoName self.now (seen_certificate certificate.now) }
    {
        self.constraints.excludes_no_name_of(certificate)
    }

    /// Whether it has no subtree of a form that is not processed and that one of the names has, nor one of URIs if one of these has no host
    /// (RFC 5280, 4.2.1.10).
    fn constrains_no_other_form_of(&self, certificate: &Certificate<'_>) -> bool
        ensures { IsTrue result ↔ ConstrainNoOtherForm self.now (seen_certificate certificate.now) }
    {
        !self.forms.has_form_of_name_of(certificate) && self.constraints.finds_hosts_of(certificate)
    }

    /// Whether its name constraints let the names of the certificate pass (RFC 5280, 6.1.3 (b), (c); 4.2.1.10).
    fn admits_names_of(&self, certificate: &Certificate<'_>) -> bool
        ensures { IsTrue result ↔ AdmitNames self.now (seen_certificate certificate.now) }
    {
        self.permits_names_of(certificate)
            && self.excludes_no_name_of(certificate)
            && self.constrains_no_other_form_of(certificate)
    }

    /// The same in one respect alone.
    fn admits_names_in(&self, check: NameCheck, certificate: &Certificate<'_>) -> bool
        ensures { IsTrue result ↔ AdmitNamesIn check self.now (seen_certificate certificate.now) }
    {
        match check {
            NameCheck::Each => self.admits_names_of(certificate),
            NameCheck::Permitted => self.permits_names_of(certificate),
            NameCheck::NotExcluded => self.excludes_no_name_of(certificate),
            NameCheck::Processed => self.constrains_no_other_form_of(certificate),
        }
    }

    /// Whether they let the names of the certificates above the target pass, except of self-issued ones. Mostly they let all names pass, and
    /// comparing subject and issuer costs more.
    fn admits_names_above(&self, check: NameCheck, tail: &Tail<'_, '_>) -> bool
        ensures { IsTrue result
            ↔ AllByRecursion (AdmitNamesOfOther check self.now) (seen_above tail.now) }
    {
        for place in tail.above {
            let other = tail.at(*place);
            if !self.admits_names_in(check, other) && !other.self_issued() {
                return false;
            }
        }
        true
    }

    /// Whether they let the names of the target pass in one respect, and of the certificates above it that are not self-issued.
    pub(crate) fn passes_names_below(&self, check: NameCheck, tail: &Tail<'_, '_>) -> bool
        ensures { IsTrue result ↔ HoldsOfNamed (AdmitNamesIn check self.now) (seen_tail tail.now) }
    {
        self.admits_names_in(check, tail.target) && self.admits_names_above(check, tail)
    }

    /// The same in each respect.
    pub fn admits_names_below(&self, tail: &Tail<'_, '_>) -> bool
        ensures { IsTrue result ↔ AdmitNamesBelow self.now (seen_tail tail.now) }
    {
        self.passes_names_below(NameCheck::Each, tail)
    }

    /// Whether its path length allows as many certificates above the target as are not self-issued (RFC 5280, 6.1.4 (l), (m)).
    pub fn allows_length(&self, tail: &Tail<'_, '_>) -> bool
        ensures { IsTrue result ↔ AllowsLength self.now (seen_tail tail.now) }
    {
        match path_length(self.certificate) {
            None => true,
            Some(most) => tail.count_others() <= most as usize,
        }
    }

    /// Whether it meets with the certificates of the tail what it has to, besides that it issued the top.
    pub fn fits_above(&self, tail: &Tail<'_, '_>) -> bool
        ensures { IsTrue result ↔ FitsAbove self.now (seen_tail tail.now) }
    {
        tail.lacks(self.certificate.octets)
            && self.allows_length(tail)
            && self.admits_names_below(tail)
    }

    /// Whether it is right above the tail (RFC 5280, 6.1.3 to 6.1.5). The verifier is asked last, and once at most.
    pub fn is_right_above<V: Verifier>(
        &self,
        verifier: &V,
        moment: i64,
        tail: &Tail<'_, '_>,
        options: Options,
    ) -> bool
        ensures { IsTrue result
            ↔ IsRightAbove options (V.accepts verifier.now) moment self.now
            (seen_tail tail.now) }
    {
        is_right_as_authority(self.certificate, moment, options)
            && self.fits_above(tail)
            && issues(verifier, self.certificate, tail.top())
    }
}
