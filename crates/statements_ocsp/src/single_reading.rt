//! How single responses are read (RFC 6960, 4.2.1).

ghost use Rattle.asn.specs.Reading.{seen_tlv, Gives};
ghost use Rattle.statements_parts.specs.Fault.{StatementGivesUnlessFull};
ghost use Rattle.statements_parts.specs.Parts.{next_in_statement};
ghost use Rattle.asn.specs.Walk.{StepGives};
ghost use Rattle.statements_ocsp.specs.CertificateId.{cert_id, seen_id};
ghost use Rattle.statements_ocsp.specs.Single.{next_update, seen_single_and_rest, seen_single_response, single, single_again, single_fields};

use crate::cert_id::CertId;
use crate::cert_status::CertStatus;
use crate::generalized_time::take_time;
use crate::response_extensions::skip_extensions;
use crate::single::SingleResponse;
use asn::{Cursor, SEQUENCE, Tlv};
use statements_parts::{ReadingFault, StatementRefusal, StatementRule};
use std::alloc::Global;

#[tactic(auto, unfolding(statements_parts::specs::Parts::next_in_statement))]
fn take_id<'a>(members: &mut Cursor<'a>) -> Result<CertId<'a>, StatementRefusal>
    ensures { StepGives seen_id result members.old members.new (next_in_statement cert_id) }
{
    CertId::read(members.next_or(StatementRule::Layout)?)
}

/// Takes nextUpdate [0] EXPLICIT GeneralizedTime OPTIONAL.
#[tactic(auto, unfolding(crate::specs::Single::next_update))]
fn take_next_update(members: &mut Cursor<'_>) -> Result<Option<i64>, StatementRefusal>
    ensures { StepGives (λ moment. moment) result members.old members.new next_update }
{
    let Some(explicit) = members.optional(0xA0) else {
        return Ok(None);
    };
    let mut inside = explicit.members();
    let moment = take_time(&mut inside)?;
    inside.ended(StatementRule::Layout)?;
    Ok(Some(moment))
}

impl<'a> SingleResponse<'a> {
    /// The components up to nextUpdate, and what stands behind them.
    #[tactic(auto, unfolding(crate::specs::Single::single_fields))]
    fn fields(value: Tlv<'a>) -> Result<(SingleResponse<'a>, Cursor<'a>), StatementRefusal>
        ensures { Gives seen_single_and_rest result (single_fields (seen_tlv value.entry)) }
    {
        value.is_a(SEQUENCE, StatementRule::Layout)?;
        let mut members = value.members();
        let id = take_id(&mut members)?;
        let status = CertStatus::take(&mut members)?;
        let this_update = take_time(&mut members)?;
        let next_update = take_next_update(&mut members)?;
        let read = SingleResponse {
            id,
            status,
            this_update,
            next_update,
        };
        Ok((read, members))
    }

    /// The single response that the value is, or the first fault.
    #[tactic(auto, unfolding(crate::specs::Single::single))]
    pub(crate) fn read(alloc: Global, value: Tlv<'a>) -> Result<SingleResponse<'a>, ReadingFault>
        ensures { StatementGivesUnlessFull seen_single_response result
            (single (seen_tlv value.entry)) }
    {
        let (read, behind) = SingleResponse::fields(value)?;
        let mut members = behind;
        skip_extensions(alloc, &mut members)?;
        members.ended(StatementRule::Layout)?;
        Ok(read)
    }

    /// The same of a single response that was read once, without memory.
    #[tactic(auto, unfolding(crate::specs::Single::single_again))]
    pub(crate) fn again(value: Tlv<'a>) -> Result<SingleResponse<'a>, StatementRefusal>
        ensures { Gives seen_single_response result (single_again (seen_tlv value.entry)) }
    {
        let (read, _) = SingleResponse::fields(value)?;
        Ok(read)
    }
}
