//! Commands in the making, and the arguments that they take.
ghost use Rattle.std.specs.Prelude.{IfOk};
ghost use Rattle.clap.specs.Words.{App, Rule, new_app, with_rule, with_subcommand};
ghost use Rattle.cli_words.specs.App.{IsApp, HasRule, IsCommand, flag as flag_rule, needed as needed_rule, optional_value, repeated as repeated_rule, wanting_subcommand};

use clap::{Arg, ArgAction, Command};
use std::alloc::{AllocError, Global};

/// A command in the making. Once memory runs out, it is the error, and nothing more is added.
#[derive(Drop)]
pub(crate) struct Building<'a> {
    pub(crate) command: Result<Command<'a>, AllocError>,
}

impl<'a> Building<'a> {
    /// A command with this name, with what it does and what stands behind its options in its help.
    pub(crate) fn new(alloc: Global, name: &'a str, about: &'a str, behind: &'a str) -> Building<'a>
        ensures { IsApp (new_app name.entry.now) result }
    {
        let command = Command::new(alloc, name).about(about).after_help(behind);
        Building {
            command: Ok(command),
        }
    }

    /// The same, where a subcommand has to be named.
    pub(crate) fn subcommand_required(self) -> Building<'a>
        ensures { (a : App) → IsApp a self.entry → IsApp (wanting_subcommand a) result }
    {
        let command = match self.command {
            Ok(command) => Ok(command.subcommand_required(true)),
            Err(error) => Err(error),
        };
        Building { command }
    }

    /// The same, with one argument more.
    pub(crate) fn arg(self, arg: Arg<'a>) -> Building<'a>
        ensures { (a : App) (rule : Rule)
            → IsApp a self.entry → HasRule rule arg.entry → IsApp (with_rule a rule) result }
    {
        let Building { command } = self;
        let command = match command {
            Ok(command) => command.arg(arg),
            Err(error) => Err(error),
        };
        Building { command }
    }

    /// The same, with one subcommand more.
    pub(crate) fn subcommand(self, other: Building<'a>) -> Building<'a>
        ensures { (a b : App)
            → IsApp a self.entry → IsApp b other.entry → IsApp (with_subcommand a b.top) result }
    {
        let Building { command } = self;
        let Building {
            command: subcommand,
        } = other;
        let command = match command {
            Ok(command) => command_above(command, subcommand),
            Err(error) => Err(error),
        };
        Building { command }
    }
}

// The command with the subcommand, if that was built.
#[tactic(auto, using(crate::proofs::Adding::adds_subcommand))]
fn command_above<'a>(
    command: Command<'a>,
    subcommand: Result<Command<'a>, AllocError>,
) -> Result<Command<'a>, AllocError>
    ensures { (a b : App) → IsCommand a command.entry → IfOk subcommand.entry (IsCommand b)
        → IfOk result (IsCommand (with_subcommand a b.top)) }
{
    match subcommand {
        Ok(subcommand) => command.subcommand(subcommand),
        Err(error) => Err(error),
    }
}

/// `--id VALUE`, which may be left out.
pub(crate) fn option<'a>(alloc: Global, id: &'a str, value: &'a str, help: &'a str) -> Arg<'a>
    ensures { HasRule (optional_value id.entry.now) result }
{
    Arg::new(alloc, id).long(id).value_name(value).help(help)
}

/// `--id VALUE`, which has to be there.
pub(crate) fn needed<'a>(alloc: Global, id: &'a str, value: &'a str, help: &'a str) -> Arg<'a>
    ensures { HasRule (needed_rule id.entry.now) result }
{
    option(alloc, id, value, help).required(true)
}

/// `--id VALUE`, which may be given several times, and may be left out.
pub(crate) fn repeated<'a>(alloc: Global, id: &'a str, value: &'a str, help: &'a str) -> Arg<'a>
    ensures { HasRule (repeated_rule id.entry.now) result }
{
    option(alloc, id, value, help).action(ArgAction::Append)
}

/// `--id`, which may be left out.
pub(crate) fn flag<'a>(alloc: Global, id: &'a str, help: &'a str) -> Arg<'a>
    ensures { HasRule (flag_rule id.entry.now) result }
{
    Arg::new(alloc, id)
        .long(id)
        .action(ArgAction::SetTrue)
        .help(help)
}
