//! The single responses of a response, one after the other (RFC 6960, 4.2.1).

ghost use Rattle.std.specs.Prelude.{◌<◌, OnOk, nat_lt};
ghost use Rattle.asn.specs.Reading.{seen_tlv, left, Gives};
ghost use Rattle.asn.specs.Walk.{check_that};
ghost use Rattle.statements_parts.specs.Fault.{StatementGivesUnlessFull};
ghost use Rattle.statements_parts.specs.Steps.{HandsOutFirst, StepGivesUnlessFull};
ghost use Rattle.statements_parts.specs.declared.fault.StatementRule.TheVariants.{TooManySingles};
ghost use Rattle.statements_ocsp.specs.OcspResponse.{next_singles};
ghost use Rattle.statements_ocsp.specs.Single.{singles_checked, seen_single_response, single_after, singles, singles_left};

use crate::single::SingleResponse;
use asn::{Cursor, SEQUENCE, Tlv};
use statements_parts::{ReadingFault, StatementRefusal, StatementRule};
use std::alloc::Global;

/// The most single responses of a response.
pub const MOST_SINGLES: usize = 256;

/// The single responses of a response that was read, in order. Each is read again from its octets, without memory.
#[derive(Clone, Copy)]
pub struct SingleResponses<'a> {
    members: Cursor<'a>,
}

impl<'a> SingleResponses<'a> {
    /// Takes the next single response; `None` if none is left.
    pub fn next(&mut self) -> Option<SingleResponse<'a>>
        ensures { HandsOutFirst seen_single_response (singles_left self.old)
            (singles_left self.new) result }
    {
        let mut behind = self.members;
        let value = behind.next()?;
        let single = SingleResponse::again(value).ok()?;
        self.members = behind;
        Some(single)
    }
}

/// The fault `TooManySingles`, at this offset, if there are as many as may be.
#[tactic(auto, unfolding(asn::specs::Walk::check_that))]
fn check_room(before: usize, at: usize) -> Result<(), StatementRefusal>
    ensures walk { Gives (λ _. tt) result (check_that (nat_lt before 256) TooManySingles at) }
    ensures room { OnOk result (before < 256) }
{
    if before < MOST_SINGLES {
        Ok(())
    } else {
        Err((StatementRule::TooManySingles, at))
    }
}

/// The single response with so many before it.
#[tactic(auto, unfolding(crate::specs::Single::single_after))]
fn read_after<'a>(
    alloc: Global,
    before: usize,
    value: Tlv<'a>,
) -> Result<SingleResponse<'a>, ReadingFault>
    ensures walk { StatementGivesUnlessFull seen_single_response result
        (single_after before (seen_tlv value.entry)) }
    ensures room { OnOk result (before < 256) }
{
    value.is_a(SEQUENCE, StatementRule::Layout)?;
    check_room(before, value.at)?;
    SingleResponse::read(alloc, value)
}

/// The first fault of the single responses that the values are.
fn check_singles(alloc: Global, members: Cursor<'_>) -> Result<(), ReadingFault>
    ensures { StatementGivesUnlessFull (λ _. tt) result
        (singles_checked (singles 0 (left members.entry).values)) }
{
    let mut members = members;
    let mut before = 0;
    while let Some(value) = members.next() {
        read_after(alloc, before, value)?;
        before += 1;
    }
    Ok(())
}

/// Takes responses SEQUENCE OF SingleResponse.
#[tactic(auto, unfolding(statements_parts::specs::Parts::statement_component), using(crate::proofs::SingleAgain::checked_singles))]
pub(crate) fn take_singles<'a>(
    alloc: Global,
    members: &mut Cursor<'a>,
) -> Result<SingleResponses<'a>, ReadingFault>
    ensures { StepGivesUnlessFull singles_left result members.old members.new next_singles }
{
    let list = members.required(SEQUENCE, StatementRule::Layout)?;
    let singles = list.members();
    check_singles(alloc, singles)?;
    Ok(SingleResponses { members: singles })
}
