//! What a verifier may be asked about a path and statements.

ghost use Rattle.std.specs.Prelude.{◌≡◌, IfOk, map};
ghost use Rattle.path.specs.Reading.{seen_query};
ghost use Rattle.statements.specs.Statement.{seen_statement};
ghost use Rattle.relying_search.specs.View.{seen_link};
ghost use Rattle.relying_questions.specs.Agreement.{DecideVerdict};
ghost use Rattle.relying_questions.specs.Places.{ArePlaced, IsPlaced, KeepsInTexts, LinkStands, LinksStand, StandWhereRead, Texts, placed_certificate, placed_certificates};
ghost use Rattle.relying_questions.specs.Questions.{questions_of};
ghost use Rattle.relying_questions.specs.Seen.{Adds, asked_of_links, certificate_of, issuer_of_link, issuers_of_links, seen_all};

use crate::part::WhichText;
use crate::placed::Placed;
use crate::question::SignatureQuestion;
use crate::signatures::of_certificate;
use crate::under_issuers::ask_statements;
use path::Query;
use relying_search::{Link, links_of};
use statements::{Statement, statement_profile_laws};
use std::alloc::{AllocError, Global};

/// The issuer of a link, as a certificate of the path or its anchor.
fn issuer_of<'p, 'a>(link: &Link<'p, 'a>) -> Placed<'p, 'a>
    ensures certificate { placed_certificate result ≡ issuer_of_link link.now }
    ensures places { (texts : Texts) → LinkStands texts (seen_link link.now)
        → IsPlaced texts result }
{
    Placed {
        certificate: link.issuer,
        source: WhichText::Certificate(link.number.saturating_sub(1)),
    }
}

/// The issuers of the links, in order.
fn issuers_of<'p, 'a>(
    alloc: Global,
    links: &[Link<'p, 'a>],
) -> Result<Vec<Placed<'p, 'a>>, AllocError>
    ensures certificates { IfOk result (λ issuers.
        placed_certificates issuers.items ≡ issuers_of_links links.now) }
    ensures places { IfOk result (λ issuers. (texts : Texts) → LinksStand texts links.now
        → ArePlaced texts issuers.items) }
{
    let mut issuers = Vec::with_capacity(alloc, links.len())?;
    for link in links {
        issuers.push(issuer_of(link))?;
    }
    Ok(issuers)
}

/// The certificate of a link, as one of the path.
fn certificate_of<'p, 'a>(link: &Link<'p, 'a>) -> Placed<'p, 'a>
    ensures certificate { placed_certificate result ≡ certificate_of link.now }
    ensures places { (texts : Texts) → LinkStands texts (seen_link link.now)
        → IsPlaced texts result }
{
    Placed {
        certificate: link.certificate,
        source: WhichText::Certificate(link.number),
    }
}

/// Adds the question about each certificate of a path, under the one before it.
fn ask_path<'a>(
    asked: &mut Vec<SignatureQuestion<'a>>,
    links: &[Link<'_, 'a>],
) -> Result<(), AllocError>
    ensures asked { IfOk result (λ _. Adds asked.old.items asked.new.items
        (asked_of_links links.now)) }
    ensures places { IfOk result (λ _. KeepsInTexts (λ texts. LinksStand texts links.now)
        asked.old.items asked.new.items) }
{
    for link in links {
        asked.push(of_certificate(&issuer_of(link), &certificate_of(link)))?;
    }
    Ok(())
}

/// What a verifier may be asked for the verdict on a path by these statements (`relying_texts::verdict`): about the certificates of the
/// path, in order, and then about each statement, under each issuer of the path in order. The answers to these questions decide the
/// verdict (`question_laws`).
///
/// For n certificates these are n questions about the path; at most n about a list, one for each issuer that the list names; and at most n
/// (1 + 2 m) about a response that m certificates come with: whether each issuer signed it, and for each certificate whether the issuer
/// issued it and whether it signed the response. Only certificates count that the responder id names and whose issuer has the name.
/// `verdict` asks only some of them: none about what stands behind a certificate that is refused, and none about statements if the path is
/// invalid. An issuer that stands on a path twice is asked about twice.
///
/// The certificates that come with a response are read once for each issuer. Memory is taken for the questions, for the certificates of the
/// path, each with its issuer, and for reading.
pub fn questions<'a>(
    alloc: Global,
    query: &Query<'a>,
    statements: &[Statement<'a>],
) -> Result<Vec<SignatureQuestion<'a>>, AllocError>
    ensures asked { IfOk result (λ asked. seen_all asked.items
        ≡ questions_of (seen_query query.now) (map seen_statement statements.now)) }
    ensures decide { IfOk result (λ asked. DecideVerdict (seen_all asked.items)
        (seen_query query.now) (map seen_statement statements.now)) }
    ensures places { IfOk result (λ asked.
        StandWhereRead (seen_query query.now) (map seen_statement statements.now) asked.items) }
{
    statement_profile_laws();
    let links = links_of(alloc, &query.anchor, query.path.as_slice())?;
    let mut asked = Vec::new(alloc);
    ask_path(&mut asked, links.as_slice())?;
    let issuers = issuers_of(alloc, links.as_slice())?;
    ask_statements(alloc, &mut asked, issuers.as_slice(), statements)?;
    Ok(asked)
}
