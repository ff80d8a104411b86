//! What is said of a path, and of two verdicts.

use path::Reason;

/// The verdict on a path of certificates, which are numbered from 1 on.
#[derive(Clone, Copy, Debug, PartialEq, Eq)]
pub enum Verdict {
    /// The path does not meet all conditions (RFC 5280, 6.1): the first certificate that is refused, and why; 0 stands for the path
    /// itself.
    Invalid(usize, Reason),
    /// The path meets all conditions, and this is the first revoked certificate, with the number of the reason (RFC 5280, 5.3.1).
    Revoked(usize, u8),
    /// The path meets all conditions, no certificate is revoked, and this is the first of which no current statement speaks.
    Unknown(usize),
    /// The path meets all conditions, and of each certificate a current statement speaks, and none revokes it.
    Valid,
}

/// The comparison of two relying parties' verdicts.
#[derive(Clone, Copy, Debug, PartialEq, Eq)]
pub enum Comparison {
    /// Both give this verdict.
    Same(Verdict),
    /// The two verdicts, and the least certificate of which the two hold something different.
    Differ(Verdict, Verdict, usize),
}
