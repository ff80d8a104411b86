//! A law of sessions.
ghost use Rattle.cli_steps.specs.Held.{holding_of};
ghost use Rattle.cli_steps.specs.Crash.{CrashLosesNothing};

use cli_failures::Source;

/// A crash loses no statement that was answered as delivered: when lines have been answered, it leaves what is held then, or that and one
/// statement more, of a delivery that was answered as failed.
pub fn crash_law<S: Source>(_source: &S)
    ensures loses_nothing { CrashLosesNothing (holding_of (S.holds _source.now)) }
{}
