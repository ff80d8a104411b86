//! `x509check_questions` and `x509check_find_questions`. Both hand on, since a library exports nothing to C.

ghost use Rattle.capi_values.specs.Among.{TellsSearchQuestions};
ghost use Rattle.capi_values.specs.Questions.{TellsQuestions};

use capi_values::{
    Asked, QueryOfTexts, SearchOfTexts, SignatureQuestion, Text, questions_of_query,
    questions_of_search,
};
use std::alloc::Global;

/// What a judge of signatures may be asked for the verdict on the path by the statements: as many questions as there is room for, and how
/// many there are.
#[unsafe(no_mangle)]
pub extern "C" fn x509check_questions(
    alloc: Global,
    query: &QueryOfTexts<'_>,
    statements: &[Text<'_>],
    questions: &mut [SignatureQuestion],
) -> Asked
    ensures { TellsQuestions query.now statements.now questions.old questions.new result }
{
    questions_of_query(alloc, query, statements, questions)
}

/// The same for what is found by the statements.
#[unsafe(no_mangle)]
pub extern "C" fn x509check_find_questions(
    alloc: Global,
    search: &SearchOfTexts<'_>,
    statements: &[Text<'_>],
    questions: &mut [SignatureQuestion],
) -> Asked
    ensures { TellsSearchQuestions search.now statements.now questions.old questions.new result }
{
    questions_of_search(alloc, search, statements, questions)
}
