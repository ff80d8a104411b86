//! What a judge of signatures may be asked, as numbers and places in texts.

ghost use Rattle.std.specs.Prelude.{◌≡◌, ◌++◌, drop, length, map, take};
ghost use Rattle.capi_values.specs.Among.{TellsSearchQuestions, WritesSearchQuestions};
ghost use Rattle.capi_values.specs.Questions.{TellsQuestions, WritesQuestions, asked_answer, place_of, question_of};

use crate::case::Case;
use crate::refusal::Refusal;
use crate::searching::{SearchCase, SearchOfTexts};
use crate::texts::{QueryOfTexts, Text};
use relying_questions::{
    SignatureQuestion as Asking, TextPart, WhichText, finding_questions, questions,
};
use std::alloc::Global;

/// Octets of a certificate or of a statement.
#[derive(Clone, Copy, Debug, PartialEq, Eq, Default)]
#[repr(C)]
pub struct Place {
    /// 1 the certificates, 2 the statements.
    pub text: u32,
    /// Which of them: of the certificates of a query the anchor has 0; for those of a search see `SearchOfTexts`.
    pub index: usize,
    pub offset: usize,
    pub length: usize,
}

/// A question to a judge of signatures.
#[derive(Clone, Copy, Debug, PartialEq, Eq, Default)]
#[repr(C)]
pub struct SignatureQuestion {
    pub algorithm: Place,
    pub key_info: Place,
    pub message: Place,
    pub signature: Place,
    pub fingerprint: [u8; 32],
}

/// How many questions there are, or why a certificate or a statement is refused. What has no number there is 0.
#[derive(Clone, Copy, Debug, PartialEq, Eq, Default)]
#[repr(C)]
pub struct Asked {
    pub refusal: Refusal,
    pub count: usize,
}

impl Place {
    fn of(part: &TextPart<'_>) -> Place
        ensures { result ≡ place_of part.now }
    {
        let (text, index) = match part.source {
            WhichText::Certificate(number) => (1, number),
            WhichText::Statement(index) => (2, index),
        };
        Place {
            text,
            index,
            offset: part.at,
            length: part.octets.len(),
        }
    }
}

impl SignatureQuestion {
    fn of(asked: &Asking<'_>) -> SignatureQuestion
        ensures { result ≡ question_of asked.now }
    {
        SignatureQuestion {
            algorithm: Place::of(&asked.algorithm),
            key_info: Place::of(&asked.key_info),
            message: Place::of(&asked.message),
            signature: Place::of(&asked.signature),
            fingerprint: asked.fingerprint(),
        }
    }
}

/// Writes the questions, as many as there is room for.
fn write(asked: &[Asking<'_>], questions: &mut [SignatureQuestion])
    ensures { questions.new ≡ take (length questions.old) (map question_of asked.now)
        ++ drop (length asked.now) questions.old }
{
    let fitting = asked.len().min(questions.len());
    for index in 0..fitting {
        questions[index] = SignatureQuestion::of(&asked[index]);
    }
}

/// Writes the questions about the path and the statements, and answers how many there are.
fn write_questions(
    alloc: Global,
    query: &QueryOfTexts<'_>,
    statements: &[Text<'_>],
    written: &mut [SignatureQuestion],
) -> Result<usize, Refusal>
    ensures { WritesQuestions query.now statements.now written.old written.new result }
{
    let case = Case::read(alloc, query, statements)?;
    let asked = questions(alloc, &case.query, case.statements.as_slice())?;
    let all = asked.as_slice();
    write(all, written);
    Ok(all.len())
}

/// The same about a search and the statements.
fn write_search_questions(
    alloc: Global,
    search: &SearchOfTexts<'_>,
    statements: &[Text<'_>],
    written: &mut [SignatureQuestion],
) -> Result<usize, Refusal>
    ensures { WritesSearchQuestions search.now statements.now written.old written.new result }
{
    let case = SearchCase::read(alloc, search, statements)?;
    let among = search.among(case.certificates.as_slice());
    let asked = finding_questions(alloc, &among, case.statements.as_slice())?;
    let all = asked.as_slice();
    write(all, written);
    Ok(all.len())
}

fn asked_answer(written: Result<usize, Refusal>) -> Asked
    ensures { result ≡ asked_answer written }
{
    match written {
        Ok(count) => Asked {
            refusal: Refusal::default(),
            count,
        },
        Err(refusal) => Asked { refusal, count: 0 },
    }
}

/// What a judge of signatures may be asked for the verdict on the path by the statements, as `relying_questions::questions` says: as many
/// questions as there is room for, and how many there are.
pub fn questions_of_query(
    alloc: Global,
    query: &QueryOfTexts<'_>,
    statements: &[Text<'_>],
    questions: &mut [SignatureQuestion],
) -> Asked
    ensures { TellsQuestions query.now statements.now questions.old questions.new result }
{
    asked_answer(write_questions(alloc, query, statements, questions))
}

/// What a judge of signatures may be asked for what is found by the statements, as `relying_questions::finding_questions` says: as many
/// questions as there is room for, and how many there are.
pub fn questions_of_search(
    alloc: Global,
    search: &SearchOfTexts<'_>,
    statements: &[Text<'_>],
    questions: &mut [SignatureQuestion],
) -> Asked
    ensures { TellsSearchQuestions search.now statements.now questions.old questions.new result }
{
    asked_answer(write_search_questions(alloc, search, statements, questions))
}
