//! Dates and times of day, counted from 0000-01-01T00:00:00Z.

ghost use Rattle.std.specs.Prelude.{◌≡◌, ◌<◌, pos, ◌-ℤ◌, ◌+ℤ◌, ◌*ℤ◌};
ghost use Rattle.asn.specs.Time.{IsCivilTime, time_value};
ghost use Rattle.cli_listing.specs.MomentText.{time_after};
ghost use Rattle.cli_listing.specs.CivilView.{seen_civil, IsCivilOn};

use crate::civil::Civil;
use jiff_core::civil::Date;

/// 0000-01-01 comes so many days after -9999-01-01, from which `Date` counts.
const FIRST: u32 = 3_652_059;

/// The date that is so many days after 0000-01-01, and the time of day.
fn civil_on(days: u32, second: u32) -> Civil
    requires days { days < 3652425 }
    requires second { second < 86400 }
    ensures counted { IsCivilOn days second result }
    ensures exists { IsCivilTime (seen_civil result) }
    ensures value { time_value (seen_civil result)
        ≡ (pos days -ℤ pos 719528) *ℤ pos 86400 +ℤ pos second }
{
    let date = Date::from_days_since_min(days + FIRST);
    Civil {
        year: date.year as u16,
        month: date.month,
        day: date.day,
        hour: (second / 3600) as u8,
        minute: (second / 60 % 60) as u8,
        second: (second % 60) as u8,
    }
}

/// The date and time that is so many seconds after 0000-01-01T00:00:00Z.
#[tactic(auto, unfolding(crate::specs::MomentText::time_after))]
pub(crate) fn civil_after(seconds: u64) -> Civil
    requires { seconds < 315569520000 }
    ensures counted { seen_civil result ≡ time_after seconds }
    ensures exists { IsCivilTime (seen_civil result) }
    ensures value { time_value (seen_civil result) ≡ pos seconds -ℤ pos 62167219200 }
{
    civil_on((seconds / 86_400) as u32, (seconds % 86_400) as u32)
}
