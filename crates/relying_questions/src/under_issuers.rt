//! What a verifier may be asked about statements under issuers.

ghost use Rattle.std.specs.Prelude.{IfOk, map};
ghost use Rattle.statements.specs.Statement.{seen_statement};
ghost use Rattle.relying_questions.specs.Places.{ArePlaced, KeepsInTexts, StatementStands, StatementsStand, placed_certificates, statement_text};
ghost use Rattle.relying_questions.specs.Questions.{asked_of_statement, asked_of_statements};
ghost use Rattle.relying_questions.specs.Seen.{Adds};

use crate::part::WhichText;
use crate::placed::Placed;
use crate::question::SignatureQuestion;
use crate::statement_questions::ask_statement;
use statements::Statement;
use std::alloc::{AllocError, Global};

/// Adds the questions about the statement with the index under each of the issuers.
fn ask_under_each<'a>(
    alloc: Global,
    asked: &mut Vec<SignatureQuestion<'a>>,
    issuers: &[Placed<'_, 'a>],
    index: usize,
    statement: &Statement<'a>,
) -> Result<(), AllocError>
    ensures asked { IfOk result (λ _. Adds asked.old.items asked.new.items
        (asked_of_statement (placed_certificates issuers.now) (seen_statement statement.now))) }
    ensures places { IfOk result (λ _. KeepsInTexts (λ texts. ArePlaced texts issuers.now
        × StatementStands (statement_text texts index) (seen_statement statement.now))
        asked.old.items asked.new.items) }
{
    for issuer in issuers {
        let source = WhichText::Statement(index);
        ask_statement(alloc, asked, issuer, source, statement)?;
    }
    Ok(())
}

/// Adds the questions about each of the statements.
pub(crate) fn ask_statements<'a>(
    alloc: Global,
    asked: &mut Vec<SignatureQuestion<'a>>,
    issuers: &[Placed<'_, 'a>],
    statements: &[Statement<'a>],
) -> Result<(), AllocError>
    ensures asked { IfOk result (λ _. Adds asked.old.items asked.new.items
        (asked_of_statements (placed_certificates issuers.now)
        (map seen_statement statements.now))) }
    ensures places { IfOk result (λ _. KeepsInTexts (λ texts. ArePlaced texts issuers.now
        × StatementsStand texts 0 (map seen_statement statements.now))
        asked.old.items asked.new.items) }
{
    for (index, statement) in statements.iter().enumerate() {
        ask_under_each(alloc, asked, issuers, index, statement)?;
    }
    Ok(())
}
