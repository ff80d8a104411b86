//! The extensions of responses and of single responses (RFC 6960, 4.4), of which none is known.

ghost use Rattle.std.specs.Prelude.{◌≡◌};
ghost use Rattle.asn.specs.Reading.{seen_tlv, left};
ghost use Rattle.cert.specs.OidSet.{oids_in};
ghost use Rattle.statements_parts.specs.Fault.{StatementGivesUnlessFull};
ghost use Rattle.statements_parts.specs.Steps.{PassesUnlessFull, TakesUnlessFull};
ghost use Rattle.statements_ocsp.specs.ResponseExtensions.{all_response_extensions, extensions_of_response, one_response_extension, optional_response_extensions};

use asn::{Cursor, SEQUENCE, Tlv};
use cert::OidSet;
use statements_parts::{ReadingFault, StatementRule, new_extension};
use std::alloc::Global;

/// Checks one more extension, which must be of a type that none of the earlier ones has, and not critical.
#[tactic(auto, unfolding(crate::specs::ResponseExtensions::one_response_extension, asn::specs::Walk::check_that))]
fn check_extension<'a>(types: &mut OidSet<'a>, value: Tlv<'a>) -> Result<(), ReadingFault>
    ensures { TakesUnlessFull oids_in types.old types.new value.entry result
        one_response_extension }
{
    let extension = new_extension(types, value)?;
    if extension.critical {
        return Err(ReadingFault::Refused(StatementRule::CriticalUnknown, value.at));
    }
    Ok(())
}

/// Checks the extensions that the values are, and gives their types.
fn check_all<'a>(alloc: Global, members: Cursor<'a>) -> Result<OidSet<'a>, ReadingFault>
    ensures { StatementGivesUnlessFull oids_in result
        (all_response_extensions (left members.entry)) }
{
    let mut members = members;
    let mut types = OidSet::new(alloc);
    while let Some(value) = members.next() {
        check_extension(&mut types, value)?;
    }
    Ok(types)
}

/// Extensions ::= SEQUENCE SIZE (1..MAX) OF Extension
#[tactic(auto, unfolding(crate::specs::ResponseExtensions::extensions_of_response))]
fn check_list(alloc: Global, list: Tlv<'_>) -> Result<(), ReadingFault>
    ensures { StatementGivesUnlessFull (λ _. tt) result
        (extensions_of_response (seen_tlv list.entry)) }
{
    list.is_a(SEQUENCE, StatementRule::Layout)?;
    let members = list.members();
    members.some(StatementRule::Layout)?;
    check_all(alloc, members)?;
    Ok(())
}

/// Passes over extensions [1] EXPLICIT Extensions OPTIONAL, once they are checked. Memory is taken for their types if there are
/// more than 16.
#[tactic(auto, unfolding(crate::specs::ResponseExtensions::optional_response_extensions))]
pub(crate) fn skip_extensions(alloc: Global, members: &mut Cursor<'_>) -> Result<(), ReadingFault>
    ensures { PassesUnlessFull members.old members.new result optional_response_extensions }
{
    let Some(explicit) = members.optional(0xA1) else {
        return Ok(());
    };
    let mut inside = explicit.members();
    let list = inside.next_or(StatementRule::Layout)?;
    check_list(alloc, list)?;
    inside.ended(StatementRule::Layout)?;
    Ok(())
}
