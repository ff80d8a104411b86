//! The verdict on a path, as numbers.

use crate::refusal::Refusal;

/// The verdict on a path, or why a certificate or a statement is refused. What has no number there is 0.
#[derive(Clone, Copy, Debug, PartialEq, Eq, Default)]
#[repr(C)]
pub struct VerdictAnswer {
    /// 1 valid, 2 invalid, 3 revoked, 4 unknown, 5 refused. No call answers 0, so a struct of zeros is no verdict.
    pub verdict: u32,
    /// The rank of the reason of an invalid path, or the reason of a revocation (RFC 5280, 5.3.1).
    pub reason: u32,
    /// The number of the certificate that decides; the first behind the anchor has 1.
    pub certificate: usize,
    pub refusal: Refusal,
}
