//! Moments.
ghost use Rattle.std.specs.Prelude.{ℤ, IfErr, IfNone, IfOk, IfSome, option_map};
ghost use Rattle.cli_operands.specs.Asked.{IsBadMoment, IsMomentOf};
ghost use Rattle.cli_operands.specs.Moment.{IsMoment};

use asn::seconds_of_time;
use cli_failures::Failure;

// The universal tag of GeneralizedTime, whose form in certificates moments have too (RFC 5280, 4.1.2.5.2).
const GENERALIZED_TIME: u8 = 24;

/// The moment that is spelled YYYYMMDDHHMMSSZ, in seconds from 1970-01-01T00:00:00Z; `None` if the text is no moment of the
/// calendar, from 00000101000000Z to 99991231235959Z.
pub fn moment_of(text: &str) -> Option<i64>
    ensures moment { IfSome result (IsMoment text.now) }
    ensures none { IfNone result ((seconds : ℤ) → IsMoment text.now seconds → ⊥) }
{
    seconds_of_time(GENERALIZED_TIME, text.as_bytes())
}

/// The moment that is asked about, if one is, in seconds from 1970-01-01T00:00:00Z; `BadTime` if the text is no moment.
pub fn read_moment<'a>(text: Option<&str>) -> Result<Option<i64>, Failure<'a>>
    ensures reads { IfOk result (IsMomentOf (option_map (λ s. s.now) text.entry)) }
    ensures fails { IfErr result (IsBadMoment (option_map (λ s. s.now) text.entry)) }
{
    match text {
        Some(text) => match moment_of(text) {
            Some(moment) => Ok(Some(moment)),
            None => Err(Failure::BadTime),
        },
        None => Ok(None),
    }
}
