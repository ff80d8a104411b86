//! What a search in texts finds, as numbers.

ghost use Rattle.std.specs.Prelude.{◌≡◌, ◌+◌, ◌<◌, ◌^◌, IfErr, IfOk, OnErr, length};
ghost use Rattle.path.specs.Query.{Accepts};
ghost use Rattle.path_search.specs.Answer.{seen_candidate};
ghost use Rattle.relying_search.specs.Finding.{seen_finding};
ghost use Rattle.capi_values.specs.Among.{AreSearchJudged, TellsFindingOf};
ghost use Rattle.capi_values.specs.Arrays.{AreWrittenTo};
ghost use Rattle.capi_values.specs.Finding.{HasNumbers, HavePlaces, IsFindingOn, TellsFinding, TellsFound, TellsSearchAnswer, path_numbers, without_path};
ghost use Rattle.capi_values.specs.Refusal.{TellsRefusal};
ghost use Rattle.capi_values.specs.Searching.{search_certificates};
ghost use Rattle.capi_values.specs.Verdict.{verdict_numbers};

use crate::answer::VerdictAnswer;
use crate::refusal::Refusal;
use crate::searching::{SearchCase, SearchOfTexts};
use crate::texts::Text;
use crate::validating::{answer_of, believing, refused};
use path_search::Candidate;
use relying_questions::finding_question_laws;
use relying_search::Finding;
use relying_texts::find;
use std::alloc::{AllocError, Global};

const NOT_FOUND: u32 = 6;

pub(crate) const GAVE_UP: u32 = 7;

/// What is found for a certificate, or what is refused. What has no number there is 0.
#[derive(Clone, Copy, Debug, PartialEq, Eq, Default)]
#[repr(C)]
pub struct FindingAnswer {
    /// Beside the numbers of a verdict on a path 6, no path is valid, and 7, the limits are used up.
    pub verdict: VerdictAnswer,
    /// How many certificates the path has, with its anchor.
    pub path_count: usize,
}

/// The numbers of the certificates of a path, the anchor first, where there are so many anchors.
fn numbers_of(alloc: Global, anchors: usize, path: &Candidate) -> Result<Vec<usize>, AllocError>
    requires { HavePlaces anchors path.now.above.items }
    ensures { IfOk result (λ numbers.
        numbers.items ≡ path_numbers anchors (seen_candidate path.now)) }
{
    let count = path.above.len();
    let mut numbers = Vec::new(alloc);
    numbers.push(path.anchor)?;
    for index in 0..count {
        numbers.push(anchors + 1 + path.above[count - 1 - index])?;
    }
    numbers.push(anchors)?;
    Ok(numbers)
}

/// Writes the numbers, as many as there is room for, and answers how many there are.
pub(crate) fn write(numbers: &[usize], room: &mut [usize]) -> usize
    ensures { AreWrittenTo numbers.now room.old room.new result }
{
    let fitting = numbers.len().min(room.len());
    for index in 0..fitting {
        room[index] = numbers[index];
    }
    numbers.len()
}

/// There is no path.
fn without_path(verdict: VerdictAnswer) -> FindingAnswer
    ensures { result ≡ without_path verdict }
{
    FindingAnswer {
        verdict,
        path_count: 0,
    }
}

/// A verdict of this number on no path.
fn numbered(verdict: u32) -> VerdictAnswer
    ensures { result ≡ verdict_numbers verdict 0 0 }
{
    VerdictAnswer {
        verdict,
        ..VerdictAnswer::default()
    }
}

/// What is found, by the statements.
fn finding_by(
    alloc: Global,
    search: &SearchOfTexts<'_>,
    statements: &[Text<'_>],
    fingerprints: &[[u8; 32]],
) -> Result<Finding, Refusal>
    ensures finds { IfOk result (λ finding.
        IsFindingOn search.now statements.now fingerprints.now (seen_finding finding)) }
    ensures fits { IfOk result (λ finding.
        HasNumbers (length search.now.anchors.now) (seen_finding finding)) }
    ensures refuses { IfErr result (TellsRefusal (search_certificates search.now) statements.now) }
{
    let case = SearchCase::read(alloc, search, statements)?;
    let verifier = believing(alloc, fingerprints)?;
    let among = search.among(case.certificates.as_slice());
    let budget = search.limits.budget();
    Ok(find(alloc, &verifier, &among, case.statements.as_slice(), budget)?)
}

/// Writes the path that is found, and tells the verdict on it.
fn tell(
    alloc: Global,
    anchors: usize,
    finding: &Finding,
    path: &mut [usize],
) -> Result<FindingAnswer, AllocError>
    requires { HasNumbers anchors (seen_finding finding.now) }
    ensures tells { IfOk result (λ answer.
        TellsFinding anchors answer path.old path.new (seen_finding finding.now)) }
    ensures filled { IfOk result (λ answer. 0 < answer.verdict.verdict) }
    ensures unwritten { OnErr result (path.new ≡ path.old) }
{
    match finding {
        Finding::Found(found, verdict) => {
            let numbers = numbers_of(alloc, anchors, found)?;
            Ok(FindingAnswer {
                verdict: answer_of(*verdict),
                path_count: write(numbers.as_slice(), path),
            })
        }
        Finding::NotFound => Ok(without_path(numbered(NOT_FOUND))),
        Finding::GaveUp => Ok(without_path(numbered(GAVE_UP))),
    }
}

/// Writes the path that is found by the statements, and tells the verdict on it.
fn find_path(
    alloc: Global,
    search: &SearchOfTexts<'_>,
    statements: &[Text<'_>],
    fingerprints: &[[u8; 32]],
    path: &mut [usize],
) -> Result<FindingAnswer, Refusal>
    ensures finds { IfOk result (TellsFound search.now statements.now fingerprints.now
        path.old path.new) }
    ensures filled { IfOk result (λ answer. 0 < answer.verdict.verdict) }
    ensures refuses { IfErr result (TellsRefusal (search_certificates search.now) statements.now) }
    ensures unwritten { OnErr result (path.new ≡ path.old) }
{
    let finding = finding_by(alloc, search, statements, fingerprints)?;
    Ok(tell(alloc, search.anchors.len(), &finding, path)?)
}

/// The first path to the target whose verdict by statements at hand is valid; if there is none, the first valid path, with its verdict
/// (`relying_texts::find`), for who accepts the signatures with these fingerprints; or the first fault, of the certificates and then of
/// the statements. Each is read once.
///
/// As many numbers of certificates of the path are written as there is room for.
///
/// Whoever asks `questions_of_search`, has each question judged, and hands in the fingerprints of those that are answered by yes, and of no
/// others, gets what that judge would find.
pub fn answer_search(
    alloc: Global,
    search: &SearchOfTexts<'_>,
    statements: &[Text<'_>],
    fingerprints: &[[u8; 32]],
    path: &mut [usize],
) -> FindingAnswer
    ensures tells { TellsSearchAnswer result search.now statements.now fingerprints.now
        path.old path.new }
    ensures judged { (accepts : Accepts)
        → AreSearchJudged accepts search.now statements.now fingerprints.now
        → TellsFindingOf result accepts search.now statements.now path.old path.new }
    ensures filled { 0 < result.verdict.verdict }
{
    finding_question_laws();
    match find_path(alloc, search, statements, fingerprints, path) {
        Ok(answer) => answer,
        Err(refusal) => without_path(refused(refusal)),
    }
}
