//! Who answers (RFC 6960, 4.2.1).

ghost use Rattle.asn.specs.Reading.{seen_tlv, Gives};
ghost use Rattle.names.specs.GeneralView.{name_contents};
ghost use Rattle.statements_parts.specs.Parts.{next_statement_name};
ghost use Rattle.asn.specs.Walk.{StepGives};
ghost use Rattle.statements_ocsp.specs.Responder.{keyed_responder, named_responder, responder, responder_at, seen_responder};

use asn::{Cursor, OCTET_STRING, SEQUENCE, Tlv};
use names::Name;
use statements_parts::{StatementRefusal, StatementRule, name_at};

/// ResponderID ::= CHOICE { byName [1] EXPLICIT Name, byKey [2] EXPLICIT KeyHash }
#[derive(Clone, Copy)]
pub enum ResponderId<'a> {
    ByName(Name<'a>),
    /// KeyHash ::= OCTET STRING: its contents, of any length.
    ByKey(&'a [u8]),
}

/// The identifier octet of byName [1].
const BY_NAME: u8 = 0xA1;

/// That of byKey [2].
const BY_KEY: u8 = 0xA2;

#[tactic(auto, unfolding(statements_parts::specs::Parts::statement_component))]
fn take_name<'a>(members: &mut Cursor<'a>) -> Result<Name<'a>, StatementRefusal>
    ensures { StepGives name_contents result members.old members.new next_statement_name }
{
    name_at(members.required(SEQUENCE, StatementRule::Layout)?)
}

impl<'a> ResponderId<'a> {
    /// byName [1] EXPLICIT Name
    #[tactic(auto, unfolding(crate::specs::Responder::named_responder))]
    fn named(value: Tlv<'a>) -> Result<ResponderId<'a>, StatementRefusal>
        ensures { Gives seen_responder result (named_responder (seen_tlv value.entry)) }
    {
        value.is_a(BY_NAME, StatementRule::Layout)?;
        let mut members = value.members();
        let name = take_name(&mut members)?;
        members.ended(StatementRule::Layout)?;
        Ok(ResponderId::ByName(name))
    }

    /// byKey [2] EXPLICIT KeyHash
    #[tactic(auto, unfolding(crate::specs::Responder::keyed_responder))]
    fn keyed(value: Tlv<'a>) -> Result<ResponderId<'a>, StatementRefusal>
        ensures { Gives seen_responder result (keyed_responder (seen_tlv value.entry)) }
    {
        value.is_a(BY_KEY, StatementRule::Layout)?;
        let mut members = value.members();
        let hash = members.required(OCTET_STRING, StatementRule::Layout)?;
        members.ended(StatementRule::Layout)?;
        Ok(ResponderId::ByKey(hash.body))
    }

    #[tactic(auto, unfolding(crate::specs::Responder::responder_at))]
    fn read(value: Tlv<'a>) -> Result<ResponderId<'a>, StatementRefusal>
        ensures { Gives seen_responder result (responder_at (seen_tlv value.entry)) }
    {
        match value.tag {
            BY_NAME => ResponderId::named(value),
            _ => ResponderId::keyed(value),
        }
    }

    /// Takes responderID.
    #[tactic(auto, unfolding(crate::specs::Responder::responder))]
    pub(crate) fn take(members: &mut Cursor<'a>) -> Result<ResponderId<'a>, StatementRefusal>
        ensures { StepGives seen_responder result members.old members.new responder }
    {
        ResponderId::read(members.next_or(StatementRule::Layout)?)
    }
}
