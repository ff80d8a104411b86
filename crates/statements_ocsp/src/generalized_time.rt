//! Times of responses (RFC 6960, 4.2.2.1).

ghost use Rattle.std.specs.Prelude.{IfOk};
ghost use Rattle.asn.specs.Time.{IsBeforeYear10000};
ghost use Rattle.asn.specs.Walk.{StepGives};
ghost use Rattle.statements_ocsp.specs.GeneralizedTime.{generalized_time};

use asn::{Cursor, GENERALIZED_TIME};
use statements_parts::{StatementRefusal, StatementRule};

/// Takes a GeneralizedTime, and gives its seconds from 1970-01-01T00:00:00Z.
#[tactic(auto, unfolding(crate::specs::GeneralizedTime::generalized_time, statements_parts::specs::Parts::statement_component))]
pub(crate) fn take_time(members: &mut Cursor<'_>) -> Result<i64, StatementRefusal>
    ensures walk { StepGives (λ moment. moment) result members.old members.new generalized_time }
    ensures early { IfOk result IsBeforeYear10000 }
{
    let value = members.required(GENERALIZED_TIME, StatementRule::Layout)?;
    value.seconds(StatementRule::Layout)
}
