//! Questions about paths and statements from texts. `None` is answered if a text cannot be read, or there is no memory for it.

use crate::notation::{MIDDLE, StatementText, octets_of, query_of, read_all, statements_of};
use path::Query;
use path_verifiers::ListVerifier;
use relying_questions::{SignatureQuestion, TextPart, WhichText, questions};
use relying_texts::{Verdict, verdict};
use statements::Statement;
use std::alloc::Global;
use vectors::ToyVerifier;

/// Whose key a question is about, and which text has the message.
pub type Pair = (WhichText, WhichText);

/// Certificates, of which the first is the anchor, and statements, as octets.
#[derive(Clone, Copy)]
struct Texts<'t> {
    certificates: &'t [Vec<u8>],
    statements: &'t [Vec<u8>],
}

/// Whether the octets of the part stand at its offset.
fn stands(texts: &Texts<'_>, part: &TextPart<'_>) -> bool {
    let text = match part.source {
        WhichText::Certificate(number) => texts.certificates.get(number),
        WhichText::Statement(index) => texts.statements.get(index),
    };
    match text {
        None => false,
        Some(text) => match text.get(part.at..) {
            None => false,
            Some(behind) => behind.starts_with(part.octets),
        },
    }
}

/// Whether the question is about this key and this message, and its parts stand at their offsets.
fn is_about(texts: &Texts<'_>, asked: &SignatureQuestion<'_>, pair: &Pair) -> bool {
    asked.key_info.source == pair.0
        && asked.message.source == pair.1
        && stands(texts, &asked.algorithm)
        && stands(texts, &asked.key_info)
        && stands(texts, &asked.message)
        && stands(texts, &asked.signature)
}

/// Whether the questions are these, in order.
fn are_about(texts: &Texts<'_>, asked: &[SignatureQuestion<'_>], pairs: &[Pair]) -> bool {
    let mut equal = asked.len() == pairs.len();
    for (asked, pair) in asked.iter().zip(pairs) {
        equal = equal && is_about(texts, asked, pair);
    }
    equal
}

/// The verifier that believes the questions that are answered with yes, and nothing else.
fn believing(alloc: Global, asked: &[SignatureQuestion<'_>]) -> Option<ListVerifier> {
    let mut prints = Vec::new(alloc);
    for asked in asked {
        if asked.answer(&ToyVerifier) {
            prints.push(asked.fingerprint()).ok()?;
        }
    }
    Some(ListVerifier::new(prints))
}

/// The verdict by the answers to the questions alone.
fn verdict_by(
    alloc: Global,
    query: &Query<'_>,
    statements: &[Statement<'_>],
    asked: &[SignatureQuestion<'_>],
) -> Option<Verdict> {
    let listed = believing(alloc, asked)?;
    verdict(alloc, &listed, query, statements).ok()
}

/// Whether the questions of the query are these, and their answers alone give the verdict.
fn is_asked<'t>(
    alloc: Global,
    texts: &Texts<'t>,
    query: &Query<'t>,
    statements: &[Statement<'t>],
    row: (&[Pair], Verdict),
) -> Option<bool> {
    let asked = questions(alloc, query, statements).ok()?;
    let given = verdict_by(alloc, query, statements, &asked)?;
    Some(are_about(texts, &asked, row.0) && given == row.1)
}

/// The same of texts.
fn is_asked_of<'t>(alloc: Global, texts: &Texts<'t>, row: (&[Pair], Verdict)) -> Option<bool> {
    let query = query_of(alloc, texts.certificates, MIDDLE)?;
    let statements = read_all(alloc, texts.statements)?;
    is_asked(alloc, texts, &query, &statements, row)
}

/// Whether a verifier may be asked these questions about a path, of which the first is the anchor, and statements, and their answers
/// give the verdict.
pub fn are_asked(
    alloc: Global,
    path: &[&str],
    statements: &[StatementText],
    pairs: &[Pair],
    wanted: Verdict,
) -> Option<bool> {
    let certificates = octets_of(alloc, path)?;
    let texts = statements_of(alloc, statements)?;
    let texts = Texts {
        certificates: &certificates,
        statements: &texts,
    };
    is_asked_of(alloc, &texts, (pairs, wanted))
}
