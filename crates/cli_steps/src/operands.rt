//! Operands of lines, as files.
ghost use Rattle.std.specs.Prelude.{IfErr, IfOk, Some};
ghost use Rattle.cli_failures.specs.Failures.{IsUnread};
ghost use Rattle.cli_steps.specs.Held.{naming};

use cli_failures::{Extent, Failure, Source};
use cli_requests::{Operand, operand_of};
use statements_facts::Profile;
use std::alloc::Global;

/// The operands of a session's lines. One that names a file holds what that file holds, and octets hold themselves. A failure names the
/// operand as it stands in the line, which is one word.
#[derive(Clone, Copy)]
pub struct OperandSource<'s, S> {
    /// Where files come from.
    pub source: &'s S,
    /// Where memory comes from.
    pub alloc: Global,
}

// The octets of the file of this name; a failure names the word.
fn read_named<'a, S: Source>(
    source: &S,
    word: &'a str,
    name: &str,
    extent: Extent,
) -> Result<Vec<u8>, Failure<'a>>
    ensures reads { IfOk result (λ octets.
        (S.holds source.now).has name.now (Some octets.items)) }
    ensures fails { IfErr result (IsUnread (naming (S.holds source.now) name.now) word.entry.now) }
{
    match source.octets_of(name, extent) {
        Ok(octets) => Ok(octets),
        Err(Failure::Unreadable { .. }) => Err(Failure::Unreadable { file: word }),
        Err(Failure::NoMemory) => Err(Failure::NoMemory),
        Err(_) => unreachable!(),
    }
}

impl<S: Source> Source for OperandSource<'_, S> {
    ghost use Rattle.cli_steps.specs.Held.{holding_of};

    ghost holds = { λ operands. holding_of (S.holds operands.source.now) };

    fn profile(&self) -> Profile {
        self.source.profile()
    }

    fn octets_of<'a>(&self, file: &'a str, extent: Extent) -> Result<Vec<u8>, Failure<'a>> {
        match operand_of(self.alloc, file.as_bytes()) {
            Ok(Some(Operand::Octets(octets))) => Ok(octets),
            Ok(Some(Operand::File(name))) => read_named(self.source, file, name.as_str(), extent),
            Ok(None) => Err(Failure::Unreadable { file }),
            Err(_) => Err(Failure::NoMemory),
        }
    }
}
