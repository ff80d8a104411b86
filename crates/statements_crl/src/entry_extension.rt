//! The extensions of an entry (RFC 5280, 5.3).

ghost use Rattle.std.specs.Prelude.{◌≡◌, IfSome};
ghost use Rattle.asn.specs.Reading.{seen_tlv, left, Gives, seen};
ghost use Rattle.asn.specs.Oid.{oid_contents};
ghost use Rattle.cert.specs.Extension.{seen_extension};
ghost use Rattle.statements_crl.specs.EntryExtension.{entry_extension_kind, one_entry_extension, optional_reason, reason_of_all, reason_of_one, seen_taken_of_entry};
ghost use Rattle.statements_crl.specs.EntryExtension.{encoded_reason, reason_after, reason_behind, reason_code, reason_given, reason_with};
ghost use Rattle.statements_parts.specs.Fault.{StatementGivesUnlessFull};
ghost use Rattle.statements_parts.specs.Steps.{StepGivesUnlessFull, TakesUnlessFull};

use asn::{Cursor, ENUMERATED, SEQUENCE, Tlv};
use cert::{Extension, OidSet, certificate_extension_number};
use statements_parts::{ReadingFault, StatementRefusal, StatementRule, is_reason, new_extension};
use std::alloc::Global;

/// What an extension of an entry is about.
#[derive(Clone, Copy, Debug, PartialEq, Eq)]
pub(crate) enum EntryExtensionKind {
    /// reasonCode (5.3.1).
    ReasonCode,
    /// invalidityDate (5.3.2), whose value decides nothing here.
    InvalidityDate,
    /// certificateIssuer (5.3.3).
    CertificateIssuer,
    /// Another.
    Other,
}

impl EntryExtensionKind {
    /// The kind of the extensions whose type has these contents.
    #[tactic(auto, unfolding(crate::specs::EntryExtension::entry_extension_kind))]
    fn of(oid: &[u8]) -> EntryExtensionKind
        ensures { result ≡ entry_extension_kind oid.now }
    {
        match certificate_extension_number(oid) {
            Some(21) => EntryExtensionKind::ReasonCode,
            Some(24) => EntryExtensionKind::InvalidityDate,
            Some(29) => EntryExtensionKind::CertificateIssuer,
            _ => EntryExtensionKind::Other,
        }
    }
}

/// removeFromCRL, which a list that is no delta list does not have.
const REMOVE_FROM_CRL: u8 = 8;

/// The number of the reason that the octets are the encoding of: CRLReason ::= ENUMERATED
#[tactic(auto, unfolding(crate::specs::EntryExtension::encoded_reason))]
fn reason_of(octets: &[u8]) -> Option<u8>
    ensures { result ≡ encoded_reason octets.now }
{
    let [identifier, size, code] = octets else {
        return None;
    };
    if *identifier == ENUMERATED && *size == 1 && is_reason(*code) {
        Some(*code)
    } else {
        None
    }
}

/// The reason that a reasonCode gives; or its fault, at the extension.
#[tactic(auto, unfolding(crate::specs::EntryExtension::reason_code, asn::specs::Walk::check_that))]
fn reason_code(extension: Extension<'_>) -> Result<u8, StatementRefusal>
    ensures { Gives (λ code. code) result (reason_code (seen_extension extension.entry)) }
{
    match reason_of(extension.value.body) {
        None => Err((StatementRule::BadReason, extension.whole.at)),
        Some(REMOVE_FROM_CRL) => Err((StatementRule::RemoveInComplete, extension.whole.at)),
        Some(code) => Ok(code),
    }
}

/// What is known of the reason once one more extension was read; or its fault, at the extension.
#[tactic(auto, unfolding(crate::specs::EntryExtension::reason_with, asn::specs::Walk::check_that))]
fn tell_reason(extension: Extension<'_>, before: u8) -> Result<u8, StatementRefusal>
    ensures { Gives (λ code. code) result (reason_with (seen_extension extension.entry) before) }
{
    match EntryExtensionKind::of(extension.oid.contents()) {
        EntryExtensionKind::ReasonCode => reason_code(extension),
        EntryExtensionKind::CertificateIssuer => {
            Err((StatementRule::Indirect, extension.whole.at))
        }
        EntryExtensionKind::Other if extension.critical => {
            Err((StatementRule::CriticalUnknown, extension.whole.at))
        }
        EntryExtensionKind::InvalidityDate | EntryExtensionKind::Other => Ok(before),
    }
}

/// The types of the extensions that were taken, and the number of the reason so far.
#[derive(Drop)]
struct TakenOfEntry<'a> {
    types: OidSet<'a>,
    reason: u8,
}

impl<'a> TakenOfEntry<'a> {
    /// Takes one more extension, which must be of a type that none of the earlier ones has.
    #[tactic(auto, unfolding(crate::specs::EntryExtension::one_entry_extension))]
    fn take(&mut self, value: Tlv<'a>) -> Result<(), ReadingFault>
        ensures { TakesUnlessFull seen_taken_of_entry self.old self.new value.entry result
            one_entry_extension }
    {
        let extension = new_extension(&mut self.types, value)?;
        self.reason = tell_reason(extension, self.reason)?;
        Ok(())
    }
}

/// The reason that the extensions give, whose types are kept in a set.
fn reason_of_several(alloc: Global, members: Cursor<'_>) -> Result<u8, ReadingFault>
    ensures { StatementGivesUnlessFull (λ code. code) result (reason_of_all (left members.entry)) }
{
    let mut members = members;
    let mut taken = TakenOfEntry {
        types: OidSet::new(alloc),
        reason: 0,
    };
    while let Some(value) = members.next() {
        taken.take(value)?;
    }
    Ok(taken.reason)
}

/// The reason that an extension gives which is the only one of its entry.
fn reason_of_one(value: Tlv<'_>) -> Result<u8, StatementRefusal>
    ensures { Gives (λ code. code) result (reason_of_one (seen_tlv value.entry)) }
{
    tell_reason(Extension::read(value, StatementRule::Layout)?, 0)
}

/// The reason that the extensions give. An entry has one extension as a rule: then no set of types is made.
#[tactic(auto, using(crate::proofs::OneExtension::reason_alone))]
fn reason_in(alloc: Global, members: Cursor<'_>) -> Result<u8, ReadingFault>
    ensures { StatementGivesUnlessFull (λ code. code) result (reason_of_all (left members.entry)) }
{
    let mut behind = members;
    let Some(value) = behind.next() else {
        return Ok(0);
    };
    if behind.end() {
        Ok(reason_of_one(value)?)
    } else {
        reason_of_several(alloc, members)
    }
}

/// Takes crlEntryExtensions Extensions OPTIONAL, and gives the number of the reason in them: 0 if there is none. Memory is
/// taken for the types of the extensions if there are more than 16.
#[tactic(auto, unfolding(crate::specs::EntryExtension::optional_reason))]
pub(crate) fn take_reason(alloc: Global, members: &mut Cursor<'_>) -> Result<u8, ReadingFault>
    ensures { StepGivesUnlessFull (λ code. code) result members.old members.new optional_reason }
{
    let Some(list) = members.optional(SEQUENCE) else {
        return Ok(0);
    };
    let extensions = list.members();
    extensions.some(StatementRule::Layout)?;
    reason_in(alloc, extensions)
}

/// The reason once one more extension was read, of an entry that was read once.
#[tactic(auto, unfolding(crate::specs::EntryExtension::reason_after))]
fn reason_with(before: u8, value: Tlv<'_>) -> u8
    ensures { result ≡ reason_after before (seen_tlv value.entry) }
{
    match Extension::read(value, StatementRule::Layout) {
        Ok(extension) => tell_reason(extension, before).unwrap_or(before),
        Err(_) => before,
    }
}

/// The number of the reason in the extensions of an entry that was read once. It takes no memory.
pub(crate) fn reason_in_list(list: Option<Tlv<'_>>) -> u8
    requires { IfSome list (λ list. list.tag ≡ 48) }
    ensures { result ≡ reason_given (seen seen_tlv list.entry) }
{
    let Some(list) = list else {
        return 0;
    };
    let mut members = list.members();
    let mut reason = 0;
    while let Some(value) = members.next() {
        reason = reason_with(reason, value);
    }
    reason
}
