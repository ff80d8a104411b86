//! General names, of which there is at least one (RFC 5280, 4.2.1.6).

ghost use Rattle.std.specs.Prelude.{◌≡◌, ◌↔◌, ◌++◌, IsTrue, IfOk, OnOk, Contains};
ghost use Rattle.asn.specs.Reading.{left, Gives, ReadsAs, each};
ghost use Rattle.cert_points.specs.GeneralNames.{any_general_name, constructed_members, general_names, seen_general_names, octets_of};

use asn::{Cursor, Tlv};
use cert::{CertRefusal, CertRule};
use names::General;
use std::alloc::{AllocError, Global};

/// The fault of the value, if it is no general name.
#[tactic(auto, unfolding(crate::specs::GeneralNames::any_general_name))]
fn check_name(value: Tlv<'_>) -> Result<(), CertRefusal>
    ensures { ReadsAs (λ _. tt) result value.entry (any_general_name tt) }
{
    match General::at(value) {
        Ok(_) => Ok(()),
        Err((fault, at)) => Err((CertRule::Name(fault), at)),
    }
}

/// The first fault of the values, if they are not all general names.
fn check_names(members: Cursor<'_>) -> Result<(), CertRefusal>
    ensures { Gives (λ _. tt) result (each any_general_name tt (left members.entry).values) }
{
    let mut members = members;
    while let Some(value) = members.next() {
        check_name(value)?;
    }
    Ok(())
}

/// The values inside; else the fault, at the value, if it is primitive.
#[tactic(auto, unfolding(crate::specs::GeneralNames::constructed_members, asn::specs::Walk::check_that))]
fn members_of(value: Tlv<'_>) -> Result<Cursor<'_>, CertRefusal>
    ensures { ReadsAs left result value.entry constructed_members }
{
    match value.inside() {
        Some(members) => Ok(members),
        None => Err((CertRule::ExtensionValue, value.at)),
    }
}

/// GeneralNames ::= SEQUENCE SIZE (1..MAX) OF GeneralName
#[derive(Clone, Copy)]
pub struct GeneralNames<'a> {
    /// The names, in order: each value is one.
    pub members: Cursor<'a>,
}

impl<'a> GeneralNames<'a> {
    /// Reads general names under an implicit tag; else the first fault: `ExtensionValue` at a value that is primitive, or at the end of
    /// one that is empty, or `Name` in a general name. No memory is taken.
    #[tactic(auto, unfolding(crate::specs::GeneralNames::general_names))]
    pub fn read(value: Tlv<'a>) -> Result<GeneralNames<'a>, CertRefusal>
        ensures { ReadsAs seen_general_names result value.entry general_names }
    {
        let members = members_of(value)?;
        members.some(CertRule::ExtensionValue)?;
        check_names(members)?;
        Ok(GeneralNames { members })
    }

    /// Whether one of the names has these octets.
    pub fn has(&self, name: &[u8]) -> bool
        ensures { IsTrue result ↔ Contains (seen_general_names self.now) name.now }
    {
        let mut members = self.members;
        while let Some(value) = members.next() {
            if value.whole == name {
                return true;
            }
        }
        false
    }

    /// Adds the octets of each name.
    pub(crate) fn push_octets(&self, all: &mut Vec<&'a [u8]>) -> Result<(), AllocError>
        ensures { OnOk result (octets_of all.new
            ≡ octets_of all.old ++ seen_general_names self.now) }
    {
        let mut members = self.members;
        while let Some(name) = members.next() {
            all.push(name.whole)?;
        }
        Ok(())
    }

    /// The octets of each name, in order.
    pub fn octets(&self, alloc: Global) -> Result<Vec<&'a [u8]>, AllocError>
        ensures { IfOk result (λ names. octets_of names ≡ seen_general_names self.now) }
    {
        let mut all = Vec::new(alloc);
        self.push_octets(&mut all)?;
        Ok(all)
    }
}
