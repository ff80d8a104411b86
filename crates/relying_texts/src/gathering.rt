//! The statements that are genuine for an issuer of a path.

ghost use Rattle.std.specs.Prelude.{◌≡◌, ◌++◌, IfOk, map};
ghost use Rattle.statements.specs.Statement.{seen_statement};
ghost use Rattle.relying_texts.specs.Texts.{facts_told, facts_under_each};
ghost use Rattle.relying_texts.specs.View.{facts_if_some, facts_in_all, identity_seen, issuers_in};

use crate::contents::{Contents, GenuineStatement, contents_under};
use cert::Certificate;
use path_verifiers::Verifier;
use relying_search::Link;
use statements::Statement;
use std::alloc::{AllocError, Global};

/// Adds the contents of a statement, if it is genuine for the issuer.
fn add<'p, 'c, 'a>(
    genuine: &mut Vec<GenuineStatement<'p, 'c, 'a>>,
    issuer: &'p Certificate<'c>,
    contents: Option<Contents<'a>>,
) -> Result<(), AllocError>
    ensures { IfOk result (λ _. facts_in_all genuine.new.items
        ≡ facts_in_all genuine.old.items
        ++ facts_if_some (identity_seen issuer.now) contents.entry) }
{
    if let Some(contents) = contents {
        genuine.push(GenuineStatement { issuer, contents })?;
    }
    Ok(())
}

/// Adds what the statement says under each issuer for which it is genuine.
fn add_under_each<'p, 'c, 'a, V: Verifier>(
    alloc: Global,
    verifier: &V,
    links: &[Link<'p, 'c>],
    statement: &Statement<'a>,
    genuine: &mut Vec<GenuineStatement<'p, 'c, 'a>>,
) -> Result<(), AllocError>
    ensures { IfOk result (λ _. facts_in_all genuine.new.items ≡ facts_in_all genuine.old.items
        ++ facts_under_each (V.accepts verifier.now) (issuers_in links.now)
        (seen_statement statement.now)) }
{
    for link in links {
        let contents = contents_under(alloc, verifier, link.issuer, statement)?;
        add(genuine, link.issuer, contents)?;
    }
    Ok(())
}

/// The statements that are genuine for an issuer of the path, in order, each under each of the issuers for which it is.
pub(crate) fn genuine_statements<'p, 'c, 'a, V: Verifier>(
    alloc: Global,
    verifier: &V,
    links: &[Link<'p, 'c>],
    statements: &[Statement<'a>],
) -> Result<Vec<GenuineStatement<'p, 'c, 'a>>, AllocError>
    ensures { IfOk result (λ genuine. facts_in_all genuine.items
        ≡ facts_told (V.accepts verifier.now) (issuers_in links.now)
        (map seen_statement statements.now)) }
{
    let mut genuine = Vec::new(alloc);
    for statement in statements {
        add_under_each(alloc, verifier, links, statement, &mut genuine)?;
    }
    Ok(genuine)
}
