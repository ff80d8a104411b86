//! The parts that lists alone are made of.

ghost use Rattle.asn.specs.Reading.{seen_tlv, Gives};
ghost use Rattle.cert.specs.AlgorithmIdentifier.{seen_algorithm};
ghost use Rattle.names.specs.GeneralView.{name_contents};
ghost use Rattle.statements_parts.specs.Parts.{statement_component};
ghost use Rattle.asn.specs.Walk.{StepGives};
ghost use Rattle.statements_crl.specs.Parts.{list_issuer, next_list_algorithm};

use asn::{Cursor, SEQUENCE, Tlv};
use cert::AlgorithmIdentifier;
use names::Name;
use statements_parts::{StatementRefusal, StatementRule, name_at};

/// The issuer, whose name is not empty.
#[tactic(auto, unfolding(crate::specs::Parts::list_issuer, asn::specs::Walk::check_that))]
fn issuer_at(value: Tlv<'_>) -> Result<Name<'_>, StatementRefusal>
    ensures { Gives name_contents result (list_issuer (seen_tlv value.entry)) }
{
    let issuer = name_at(value)?;
    if issuer.is_empty() {
        return Err((StatementRule::Layout, value.at));
    }
    Ok(issuer)
}

#[tactic(auto, unfolding(statements_parts::specs::Parts::statement_component))]
pub(crate) fn take_issuer<'a>(members: &mut Cursor<'a>) -> Result<Name<'a>, StatementRefusal>
    ensures { StepGives name_contents result members.old members.new
        (statement_component 0x30 list_issuer) }
{
    issuer_at(members.required(SEQUENCE, StatementRule::Layout)?)
}

/// Takes signatureAlgorithm, which has to have the octets of the algorithm identifier in the signed part, `inner`.
#[tactic(auto, unfolding(statements_parts::specs::Parts::statement_component, crate::specs::Parts::same_list_algorithm, asn::specs::Walk::check_that))]
pub(crate) fn take_same_algorithm(
    inner: AlgorithmIdentifier<'_>,
    members: &mut Cursor<'_>,
) -> Result<(), StatementRefusal>
    ensures { StepGives (λ _. tt) result members.old members.new
        (next_list_algorithm (seen_algorithm inner.entry)) }
{
    let value = members.required(SEQUENCE, StatementRule::Layout)?;
    if value.whole == inner.value.whole {
        Ok(())
    } else {
        Err((StatementRule::Layout, value.at))
    }
}
