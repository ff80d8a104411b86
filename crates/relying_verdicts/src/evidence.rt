//! The verdict by what bears on the certificates of a path (RFC 5280, 6.3.3; RFC 6960, 2.2).

ghost use Rattle.std.specs.Prelude.{◌≡◌, map};
ghost use Rattle.relying_agreement.specs.Verdict.{first_revoked, first_uncovered, verdict_by};
ghost use Rattle.relying_search.specs.View.{seen_evidence};

use relying_agreement::Verdict;
use relying_search::Evidence;

/// The first certificate that is revoked, with the number of the reason.
fn first_revoked(evidence: &[Evidence], moment: i64) -> Option<(usize, u8)>
    ensures { result ≡ first_revoked moment (map seen_evidence evidence.now) }
{
    for it in evidence {
        if let Some(reason) = it.reason(moment) {
            return Some((it.number, reason));
        }
    }
    None
}

/// The first certificate of which no statement speaks.
fn first_uncovered(evidence: &[Evidence], moment: i64) -> Option<usize>
    ensures { result ≡ first_uncovered moment (map seen_evidence evidence.now) }
{
    for it in evidence {
        if !it.is_covered(moment) {
            return Some(it.number);
        }
    }
    None
}

/// What is said of a path that meets all conditions.
pub(crate) fn verdict_by(evidence: &[Evidence], moment: i64) -> Verdict
    ensures { result ≡ verdict_by moment (map seen_evidence evidence.now) }
{
    if let Some((number, reason)) = first_revoked(evidence, moment) {
        return Verdict::Revoked(number, reason);
    }
    match first_uncovered(evidence, moment) {
        Some(number) => Verdict::Unknown(number),
        None => Verdict::Valid,
    }
}
