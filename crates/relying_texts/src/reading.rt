//! Statements from their octets.

ghost use Rattle.std.specs.Prelude.{IfErr, IfOk, map};
ghost use Rattle.path.specs.Reading.{texts_of};
ghost use Rattle.statements.specs.Statement.{seen_statement};
ghost use Rattle.relying_texts.specs.Reading.{AreStatementsRead, AreStatementsReadUnder, IsFirstStatementRefused, IsFirstStatementRefusedUnder};

use statements::Statement;
use statements_facts::Profile;
use statements_parts::ReadingFault;
use std::alloc::Global;
use thiserror::Error;

/// Which of several statements is refused, from 0 on, and why.
#[derive(Clone, Copy, Debug, PartialEq, Eq, Error)]
#[error("statement {statement} is refused: {fault}")]
pub struct StatementsFault {
    pub statement: usize,
    pub fault: ReadingFault,
}

/// Reads statements from DER, each a list or a response, in order. The first text that is refused is reported. If there is no room for the
/// list of statements, the one being read is, with `ReadingFault::Memory`.
pub fn read_statements<'a>(
    alloc: Global,
    texts: &[&'a [u8]],
) -> Result<Vec<Statement<'a>>, StatementsFault>
    ensures reads { IfOk result (λ read.
        AreStatementsRead (texts_of texts.now) (map seen_statement read.items)) }
    ensures refused { IfErr result (λ refusal.
        IsFirstStatementRefused (texts_of texts.now) refusal.statement refusal.fault) }
{
    read_statements_under(alloc, Profile::Stated, texts)
}

/// As `read_statements`, in a profile: each text as `Statement::read_under` reads it.
pub fn read_statements_under<'a>(
    alloc: Global,
    profile: Profile,
    texts: &[&'a [u8]],
) -> Result<Vec<Statement<'a>>, StatementsFault>
    ensures reads { IfOk result (λ read.
        AreStatementsReadUnder profile (texts_of texts.now) (map seen_statement read.items)) }
    ensures refused { IfErr result (λ refusal. IsFirstStatementRefusedUnder profile
        (texts_of texts.now) refusal.statement refusal.fault) }
{
    let mut statements = Vec::new(alloc);
    for (index, text) in texts.iter().enumerate() {
        let statement = match Statement::read_under(alloc, profile, text) {
            Ok(statement) => statement,
            Err(fault) => {
                return Err(StatementsFault {
                    statement: index,
                    fault,
                });
            }
        };
        if statements.push(statement).is_err() {
            return Err(StatementsFault {
                statement: index,
                fault: ReadingFault::Memory,
            });
        }
    }
    Ok(statements)
}
