//! Dates and times of day.

ghost use Rattle.std.specs.Prelude.{◌<◌};

/// A date from the year 0 to 9999, and a time of that day.
#[derive(Clone, Copy)]
pub(crate) struct Civil {
    pub(crate) year: u16,
    pub(crate) month: u8,
    pub(crate) day: u8,
    pub(crate) hour: u8,
    pub(crate) minute: u8,
    pub(crate) second: u8,
    ghost year_in: { year < 10000 },
    ghost month_in: { month < 100 },
    ghost day_in: { day < 100 },
    ghost hour_in: { hour < 100 },
    ghost minute_in: { minute < 100 },
    ghost second_in: { second < 100 },
}
