//! The extensions of a certificate (RFC 5280, 4.2).

ghost use Rattle.std.specs.Prelude.{◌≡◌, OnErr, OnOk, Err};
ghost use Rattle.cert.specs.declared.fault.CertFault.TheVariants.{Memory};
ghost use Rattle.asn.specs.Reading.{seen_tlv, left};
ghost use Rattle.asn.specs.Oid.{oid_contents};
ghost use Rattle.cert.specs.Extensions.{seen_extensions, no_extensions, kind_of_extension, TellsExtension, NotesExtension, TakesExtension, all_extensions, seen_taken, extensions};
ghost use Rattle.cert.specs.Fault.{GivesUnlessFull};

use crate::alternative_names::read_alternative_names;
use crate::basic_constraints::BasicConstraints;
use crate::extension::Extension;
use crate::extension_kind::ExtensionKind;
use crate::extension_values::ExtensionValues;
use crate::fault::{CertFault, CertRule};
use crate::key_usage::KeyUsage;
use crate::name_constraints::NameConstraints;
use crate::oid_set::OidSet;
use crate::purposes::read_purposes;
use asn::{Cursor, Oid, SEQUENCE, Tlv};
use names::General;
use std::alloc::Global;

/// What the extensions of a certificate say. A list is empty if its extension is not there.
#[derive(Drop)]
pub struct Extensions<'a> {
    pub key_usage: Option<KeyUsage<'a>>,
    /// subjectAltName.
    pub alternative_names: Vec<General<'a>>,
    pub basic_constraints: Option<BasicConstraints>,
    pub name_constraints: NameConstraints<'a>,
    /// extKeyUsage.
    pub purposes: Vec<Oid<'a>>,
    /// Whether there is policyMappings, policyConstraints or inhibitAnyPolicy.
    pub needs_policy_processing: bool,
    /// Whether there is certificatePolicies, and it is critical.
    pub critical_policies: bool,
    /// Whether there is id-pkix-ocsp-nocheck.
    pub no_check: bool,
    /// The types of those that are critical and not recognised, in order.
    pub unrecognised: Vec<Oid<'a>>,
    /// The values themselves, of which views are made that only some callers need.
    pub values: ExtensionValues<'a>,
}

impl<'a> Extensions<'a> {
    /// What no extensions say.
    pub(crate) fn none(alloc: Global) -> Extensions<'a>
        ensures { seen_extensions result ≡ no_extensions }
    {
        Extensions {
            key_usage: None,
            alternative_names: Vec::new(alloc),
            basic_constraints: None,
            name_constraints: NameConstraints {
                permitted: Vec::new(alloc),
                excluded: Vec::new(alloc),
            },
            purposes: Vec::new(alloc),
            needs_policy_processing: false,
            critical_policies: false,
            no_check: false,
            unrecognised: Vec::new(alloc),
            values: ExtensionValues::none(),
        }
    }

    /// Reads the OCTET STRING of an extension of that kind.
    #[tactic(auto, unfolding(crate::specs::Extensions::told_by))]
    fn tell(
        &mut self,
        alloc: Global,
        kind: ExtensionKind,
        octet_string: Tlv<'a>,
    ) -> Result<(), CertFault>
        ensures { TellsExtension kind octet_string.entry self.old self.new result }
    {
        self.values.keep(kind, octet_string);
        match kind {
            ExtensionKind::KeyUsage => self.key_usage = Some(KeyUsage::read(octet_string)?),
            ExtensionKind::AlternativeNames => {
                self.alternative_names = read_alternative_names(alloc, octet_string)?;
            }
            ExtensionKind::BasicConstraints => {
                self.basic_constraints = Some(BasicConstraints::read(octet_string)?);
            }
            ExtensionKind::NameConstraints => {
                self.name_constraints = NameConstraints::read(alloc, octet_string)?;
            }
            ExtensionKind::Purposes => self.purposes = read_purposes(alloc, octet_string)?,
            ExtensionKind::PolicyMappings
            | ExtensionKind::PolicyConstraints
            | ExtensionKind::InhibitAnyPolicy => self.needs_policy_processing = true,
            ExtensionKind::NoCheck => self.no_check = true,
            ExtensionKind::DistributionPoints | ExtensionKind::Policies | ExtensionKind::Other => {}
        }
        Ok(())
    }

    /// Lists the type of an extension, of that kind, that is critical and not recognised, and notes whether it is critical certificatePolicies.
    fn note(&mut self, kind: ExtensionKind, extension: Extension<'a>) -> Result<(), CertFault>
        requires { kind ≡ kind_of_extension (oid_contents extension.oid) }
        ensures full { OnErr result (result ≡ Err Memory) }
        ensures noted { OnOk result (NotesExtension extension.entry self.old self.new) }
    {
        if extension.critical && !kind.is_recognised() {
            self.unrecognised.push(extension.oid)?;
        }
        let is_critical_policies = extension.critical && kind.is_policies();
        self.critical_policies = self.critical_policies | is_critical_policies;
        Ok(())
    }
}

/// The types of the extensions that were taken, and what these say.
#[derive(Drop)]
pub(crate) struct Taken<'a> {
    types: OidSet<'a>,
    told: Extensions<'a>,
}

impl<'a> Taken<'a> {
    /// Takes one more extension, which must be of a type that none of the earlier ones has.
    #[tactic(auto, unfolding(crate::specs::Extensions::one_extension, asn::specs::Walk::check_that))]
    fn take(&mut self, alloc: Global, value: Tlv<'a>) -> Result<(), CertFault>
        ensures { TakesExtension value.entry self.old self.new result }
    {
        let extension = Extension::read(value, CertRule::Layout)?;
        if !self.types.insert(extension.oid.contents())? {
            return Err(CertFault::Refused(CertRule::ExtensionRepeated, value.at));
        }
        let kind = ExtensionKind::of(extension.oid.contents());
        self.told.tell(alloc, kind, extension.value)?;
        self.told.note(kind, extension)
    }
}

/// Takes the extensions that the values are.
fn take_all<'a>(alloc: Global, members: Cursor<'a>) -> Result<Taken<'a>, CertFault>
    ensures { GivesUnlessFull seen_taken result (all_extensions (left members.entry)) }
{
    let mut members = members;
    let mut taken = Taken {
        types: OidSet::new(alloc),
        told: Extensions::none(alloc),
    };
    while let Some(value) = members.next() {
        taken.take(alloc, value)?;
    }
    Ok(taken)
}

impl<'a> Extensions<'a> {
    /// Extensions ::= SEQUENCE SIZE (1..MAX) OF Extension
    ///
    /// What the extensions say; else the first fault: `Layout` at a value that is no SEQUENCE, or at the end of one that is
    /// empty, or the fault of an extension. Time is that of n log n for n octets; memory is taken for the lists, and while
    /// they are read for the types, if there are more than 16.
    #[tactic(auto, unfolding(crate::specs::Extensions::extensions))]
    pub(crate) fn read(alloc: Global, value: Tlv<'a>) -> Result<Extensions<'a>, CertFault>
        ensures { GivesUnlessFull seen_extensions result (extensions (seen_tlv value.entry)) }
    {
        value.is_a(SEQUENCE, CertRule::Layout)?;
        let members = value.members();
        members.some(CertRule::Layout)?;
        let taken = take_all(alloc, members)?;
        Ok(taken.told)
    }
}
