//! The verdict on a path in texts, as numbers.

ghost use Rattle.std.specs.Prelude.{◌≡◌, ◌<◌, IfErr, IfOk};
ghost use Rattle.path.specs.Query.{Accepts};
ghost use Rattle.path_verifiers.specs.ListVerifier.{Believes};
ghost use Rattle.capi_values.specs.Judging.{AreJudged, TellsVerdictFor};
ghost use Rattle.capi_values.specs.Refusal.{TellsRefusal};
ghost use Rattle.capi_values.specs.Texts.{query_certificates};
ghost use Rattle.capi_values.specs.Verdict.{IsVerdictOn, TellsAnswer, TellsVerdict, refusal_answer};

use crate::answer::VerdictAnswer;
use crate::case::Case;
use crate::refusal::Refusal;
use crate::texts::{QueryOfTexts, Text};
use path_verifiers::ListVerifier;
use relying_agreement::Verdict;
use relying_questions::question_laws;
use relying_texts::verdict;
use std::alloc::{AllocError, Global};

const VALID: u32 = 1;

pub const INVALID: u32 = 2;

pub const REVOKED: u32 = 3;

const UNKNOWN: u32 = 4;

pub(crate) const REFUSED: u32 = 5;

/// The verdict as numbers.
pub(crate) fn answer_of(verdict: Verdict) -> VerdictAnswer
    ensures tells { TellsVerdict result verdict }
    ensures filled { 0 < result.verdict }
{
    let answer = VerdictAnswer::default();
    match verdict {
        Verdict::Valid => VerdictAnswer {
            verdict: VALID,
            ..answer
        },
        Verdict::Invalid(certificate, reason) => VerdictAnswer {
            verdict: INVALID,
            reason: u32::from(reason.rank()),
            certificate,
            ..answer
        },
        Verdict::Revoked(certificate, reason) => VerdictAnswer {
            verdict: REVOKED,
            reason: u32::from(reason),
            certificate,
            ..answer
        },
        Verdict::Unknown(certificate) => VerdictAnswer {
            verdict: UNKNOWN,
            certificate,
            ..answer
        },
    }
}

pub(crate) fn refused(refusal: Refusal) -> VerdictAnswer
    ensures tells { result ≡ refusal_answer refusal }
    ensures filled { 0 < result.verdict }
{
    VerdictAnswer {
        verdict: REFUSED,
        refusal,
        ..VerdictAnswer::default()
    }
}

/// A verifier that accepts the signatures with these fingerprints.
pub(crate) fn believing(
    alloc: Global,
    fingerprints: &[[u8; 32]],
) -> Result<ListVerifier, AllocError>
    ensures { IfOk result (λ verifier. Believes verifier fingerprints.now) }
{
    Ok(ListVerifier::new(Vec::from_slice(alloc, fingerprints)?))
}

/// The verdict by the statements.
fn verdict_on(
    alloc: Global,
    query: &QueryOfTexts<'_>,
    statements: &[Text<'_>],
    fingerprints: &[[u8; 32]],
) -> Result<Verdict, Refusal>
    ensures verdict { IfOk result (IsVerdictOn query.now statements.now fingerprints.now) }
    ensures refuses { IfErr result (TellsRefusal (query_certificates query.now) statements.now) }
{
    let case = Case::read(alloc, query, statements)?;
    let verifier = believing(alloc, fingerprints)?;
    Ok(verdict(alloc, &verifier, &case.query, case.statements.as_slice())?)
}

/// The verdict on the path by statements at hand, as `relying_texts::verdict` gives it, for who accepts the signatures with these
/// fingerprints; or the first fault, of the certificates and then of the statements. Each is read once.
///
/// Whoever asks `questions_of_query`, has each question judged, and hands in the fingerprints of those that are answered by yes, and of no
/// others, gets the verdict of that judge.
pub fn answer_query(
    alloc: Global,
    query: &QueryOfTexts<'_>,
    statements: &[Text<'_>],
    fingerprints: &[[u8; 32]],
) -> VerdictAnswer
    ensures tells { TellsAnswer result query.now statements.now fingerprints.now }
    ensures judged { (accepts : Accepts)
        → AreJudged accepts query.now statements.now fingerprints.now
        → TellsVerdictFor result accepts query.now statements.now }
    ensures filled { 0 < result.verdict }
{
    question_laws();
    match verdict_on(alloc, query, statements, fingerprints) {
        Ok(verdict) => answer_of(verdict),
        Err(refusal) => refused(refusal),
    }
}
