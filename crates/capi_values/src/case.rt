//! A query and statements that are read from texts.

ghost use Rattle.std.specs.Prelude.{IfErr, IfOk, map};
ghost use Rattle.path.specs.Reading.{seen_query};
ghost use Rattle.statements.specs.Statement.{seen_statement};
ghost use Rattle.relying_texts.specs.Reading.{AreStatementsReadUnder};
ghost use Rattle.capi_values.specs.Refusal.{TellsRefusal, TellsStatement};
ghost use Rattle.capi_values.specs.Texts.{AreAllOctets, IsRead, certificate_texts, octets_of_texts, query_certificates};

use crate::refusal::Refusal;
use crate::texts::{QueryOfTexts, Text, octets_of, profile_of};
use relying_texts::read_statements_under;
use statements::Statement;
use statements_facts::Profile;
use std::alloc::Global;

/// A query and statements that were read.
#[derive(Drop)]
pub(crate) struct Case<'a> {
    pub(crate) query: path::Query<'a>,
    pub(crate) statements: Vec<Statement<'a>>,
}

/// The statements that the texts are in a profile.
pub(crate) fn read_each<'a>(
    alloc: Global,
    profile: Profile,
    texts: &[Text<'a>],
) -> Result<Vec<Statement<'a>>, Refusal>
    ensures reads { IfOk result (λ read. AreStatementsReadUnder profile (octets_of_texts texts.now)
        (map seen_statement read.items)) }
    ensures fit { IfOk result (λ _. AreAllOctets (octets_of_texts texts.now)) }
    ensures refuses { IfErr result (TellsStatement profile texts.now) }
{
    let octets = octets_of(alloc, texts)?;
    match read_statements_under(alloc, profile, octets.as_slice()) {
        Ok(statements) => Ok(statements),
        Err(refusal) => Err(Refusal::of_statement(refusal)),
    }
}

impl<'a> Case<'a> {
    /// Reads the certificates, and then the statements, each once, in the profile that the query asks for.
    pub(crate) fn read(
        alloc: Global,
        query: &QueryOfTexts<'a>,
        statements: &[Text<'a>],
    ) -> Result<Case<'a>, Refusal>
        ensures reads { IfOk result (λ case. IsRead query.now statements.now
            (seen_query case.query) (map seen_statement case.statements.items)) }
        ensures fit { IfOk result (λ _.
            AreAllOctets (certificate_texts query.now)
            × AreAllOctets (octets_of_texts statements.now)) }
        ensures refuses { IfErr result
            (TellsRefusal (query_certificates query.now) statements.now) }
    {
        let profile = profile_of(query.wide);
        let query = query.read(alloc)?;
        match read_each(alloc, profile, statements) {
            Ok(statements) => Ok(Case { query, statements }),
            Err(refusal) => Err(refusal),
        }
    }
}
