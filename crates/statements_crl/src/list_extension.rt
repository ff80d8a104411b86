//! The extensions of a list (RFC 5280, 5.2).

ghost use Rattle.std.specs.Prelude.{◌≡◌};
ghost use Rattle.asn.specs.Reading.{seen_tlv, left, members, Gives};
ghost use Rattle.asn.specs.Oid.{oid_contents};
ghost use Rattle.cert.specs.Extension.{seen_extension};
ghost use Rattle.statements_crl.specs.ListExtension.{all_list_extensions, number_and_scope, list_extension_kind, list_extensions, one_list_extension, said_by, seen_named, seen_said, seen_taken_of_list};
ghost use Rattle.statements_parts.specs.Fault.{StatementGivesUnlessFull};
ghost use Rattle.statements_parts.specs.Steps.{StepGivesUnlessFull, TakesUnlessFull};

use crate::issuing_point::IssuingPoint;
use crate::number::CrlNumber;
use asn::{Cursor, SEQUENCE, Tlv};
use cert::{Extension, OidSet, certificate_extension_number};
use cert_points::GeneralNames;
use statements_facts::{Profile, Scope};
use statements_parts::{ReadingFault, StatementRefusal, StatementRule, new_extension};
use std::alloc::Global;

/// What an extension of a list is about.
#[derive(Clone, Copy, Debug, PartialEq, Eq)]
pub(crate) enum ListExtensionKind {
    /// cRLNumber (5.2.3).
    CrlNumber,
    /// deltaCRLIndicator (5.2.4).
    DeltaIndicator,
    /// issuingDistributionPoint (5.2.5).
    IssuingDistributionPoint,
    /// Another.
    Other,
}

impl ListExtensionKind {
    /// The kind of the extensions whose type has these contents.
    #[tactic(auto, unfolding(crate::specs::ListExtension::list_extension_kind))]
    fn of(oid: &[u8]) -> ListExtensionKind
        ensures { result ≡ list_extension_kind oid.now }
    {
        match certificate_extension_number(oid) {
            Some(20) => ListExtensionKind::CrlNumber,
            Some(27) => ListExtensionKind::DeltaIndicator,
            Some(28) => ListExtensionKind::IssuingDistributionPoint,
            _ => ListExtensionKind::Other,
        }
    }
}

/// What the extensions say so far: the number, the scope, and the names of the point.
#[derive(Clone, Copy)]
struct ListExtensions<'a> {
    number: Option<CrlNumber<'a>>,
    scope: Scope,
    points: Option<GeneralNames<'a>>,
}

impl<'a> ListExtensions<'a> {
    /// What is known once one more extension was read; or its fault, at the extension.
    #[tactic(auto, unfolding(crate::specs::ListExtension::said_by, asn::specs::Walk::check_that))]
    fn with(
        &self,
        profile: Profile,
        one: Extension<'a>,
    ) -> Result<ListExtensions<'a>, StatementRefusal>
        ensures { Gives seen_said result
            (said_by profile (seen_extension one.entry) (seen_said self.now)) }
    {
        let at = one.whole.at;
        match ListExtensionKind::of(one.oid.contents()) {
            ListExtensionKind::CrlNumber => match CrlNumber::read(one.value.body) {
                Some(number) => Ok(ListExtensions {
                    number: Some(number),
                    scope: self.scope,
                    points: self.points,
                }),
                None => Err((StatementRule::NumberRange, at)),
            },
            ListExtensionKind::DeltaIndicator => Err((StatementRule::Delta, at)),
            ListExtensionKind::IssuingDistributionPoint => match IssuingPoint::read(
                profile, one.value,
            ) {
                Some(point) => Ok(ListExtensions {
                    number: self.number,
                    scope: point.scope,
                    points: point.points,
                }),
                None => Err((StatementRule::Scope, at)),
            },
            ListExtensionKind::Other if one.critical => {
                Err((StatementRule::CriticalUnknown, at))
            }
            ListExtensionKind::Other => Ok(*self),
        }
    }
}

/// The types of the extensions that were taken, and what these say.
#[derive(Drop)]
struct TakenOfList<'a> {
    types: OidSet<'a>,
    said: ListExtensions<'a>,
}

impl<'a> TakenOfList<'a> {
    /// Takes one more extension, which must be of a type that none of the earlier ones has.
    #[tactic(auto, unfolding(crate::specs::ListExtension::one_list_extension))]
    fn take(&mut self, profile: Profile, value: Tlv<'a>) -> Result<(), ReadingFault>
        ensures { TakesUnlessFull seen_taken_of_list self.old self.new value.entry result
            (one_list_extension profile) }
    {
        let extension = new_extension(&mut self.types, value)?;
        self.said = self.said.with(profile, extension)?;
        Ok(())
    }
}

/// Takes the extensions that the values are.
fn take_all<'a>(
    alloc: Global,
    profile: Profile,
    members: Cursor<'a>,
) -> Result<TakenOfList<'a>, ReadingFault>
    ensures { StatementGivesUnlessFull seen_taken_of_list result
        (all_list_extensions profile (left members.entry)) }
{
    let mut members = members;
    let mut taken = TakenOfList {
        types: OidSet::new(alloc),
        said: ListExtensions {
            number: None,
            scope: Scope::All,
            points: None,
        },
    };
    while let Some(value) = members.next() {
        taken.take(profile, value)?;
    }
    Ok(taken)
}

/// What its extensions say of a list.
#[derive(Clone, Copy)]
pub(crate) struct NumberAndScope<'a> {
    pub(crate) number: CrlNumber<'a>,
    pub(crate) scope: Scope,
    pub(crate) points: Option<GeneralNames<'a>>,
}

/// The offset of the end of the value.
#[tactic(auto, unfolding(asn::specs::Members::members_at, asn::specs::Place::body_place, asn::specs::Part::contents))]
fn end_of(list: Tlv<'_>) -> usize
    ensures { result ≡ (members (seen_tlv list.entry)).end }
{
    list.body_at() + list.body.len()
}

impl<'a> NumberAndScope<'a> {
    /// Extensions ::= SEQUENCE SIZE (1..MAX) OF Extension, one of which is the number
    #[tactic(auto, unfolding(crate::specs::ListExtension::number_and_scope))]
    fn read(
        alloc: Global,
        profile: Profile,
        list: Tlv<'a>,
    ) -> Result<NumberAndScope<'a>, ReadingFault>
        ensures { StatementGivesUnlessFull seen_named result
            (number_and_scope profile (seen_tlv list.entry)) }
    {
        list.is_a(SEQUENCE, StatementRule::Layout)?;
        let members = list.members();
        members.some(StatementRule::Layout)?;
        let taken = take_all(alloc, profile, members)?;
        let Some(number) = taken.said.number else {
            return Err(ReadingFault::Refused(StatementRule::NoNumber, end_of(list)));
        };
        Ok(NumberAndScope {
            number,
            scope: taken.said.scope,
            points: taken.said.points,
        })
    }

    /// Takes crlExtensions [0] EXPLICIT Extensions, which have to be there.
    #[tactic(auto, unfolding(crate::specs::ListExtension::list_extensions))]
    pub(crate) fn take(
        alloc: Global,
        profile: Profile,
        members: &mut Cursor<'a>,
    ) -> Result<NumberAndScope<'a>, ReadingFault>
        ensures { StepGivesUnlessFull seen_named result members.old members.new
            (list_extensions profile) }
    {
        members.some(StatementRule::NoNumber)?;
        let explicit = members.required(0xA0, StatementRule::Layout)?;
        let mut inside = explicit.members();
        let list = inside.next_or(StatementRule::Layout)?;
        let named = NumberAndScope::read(alloc, profile, list)?;
        inside.ended(StatementRule::Layout)?;
        Ok(named)
    }
}
