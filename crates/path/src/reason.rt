//! Why a path is refused, and what a validation answers.

ghost use Rattle.std.specs.Prelude.{◌≡◌};
ghost use Rattle.path.specs.Reason.{reason_rank, reason_name};

use thiserror::Error;

/// Why a certificate of a path, or the path itself, is refused. Of several reasons at one certificate the one of the least rank is
/// reported.
#[derive(Clone, Copy, Debug, PartialEq, Eq, Error)]
pub enum Reason {
    /// An earlier certificate of the path has the same octets.
    #[error("certificate repeated")]
    Repeated,
    /// The verifier does not accept the signature under the issuer's key (RFC 5280, 6.1.3 (a) (1)).
    #[error("signature")]
    Signature,
    /// The moment is before notBefore (6.1.3 (a) (2)).
    #[error("not yet valid")]
    NotYet,
    /// The moment is after notAfter (6.1.3 (a) (2)).
    #[error("expired")]
    Expired,
    /// The issuer is not the subject of the certificate before (6.1.3 (a) (4)).
    #[error("another issuer")]
    Issuer,
    /// A name lies outside of the permitted subtrees (6.1.3 (b)).
    #[error("name not permitted")]
    NotPermitted,
    /// A name lies in an excluded subtree (6.1.3 (c)).
    #[error("name excluded")]
    Excluded,
    /// A name has a form that is constrained but not processed (4.2.1.10).
    #[error("constraint of a form that is not processed")]
    ConstraintForm,
    /// An issuer is not of version 3 with cA (6.1.4 (k)).
    #[error("no authority")]
    NotCa,
    /// More certificates follow than a path length allows (6.1.4 (l)).
    #[error("path too long for a path length")]
    PathLength,
    /// An issuer's keyUsage lacks keyCertSign (6.1.4 (n)).
    #[error("key may not sign certificates")]
    KeyCertSign,
    /// An extension needs a policy tree, which is not built (6.1.3 (d) to (f)).
    #[error("policy processing wanted")]
    Policy,
    /// A critical extension is not recognised (6.1.4 (o), 6.1.5 (f)).
    #[error("critical extension not recognised")]
    CriticalUnknown,
    /// The last certificate is not for the purpose asked for (4.2.1.12).
    #[error("another purpose")]
    Purpose,
    /// The path has no certificate.
    #[error("no certificate")]
    Empty,
    /// The path has more than 128 certificates.
    #[error("too many certificates")]
    TooLong,
    /// A policy is required, and none is valid (6.1.3 (f)). This reason and those behind it are for who asks for policies.
    #[error("a policy is required, and none is valid")]
    NoValidPolicy,
    /// anyPolicy is mapped, or mapped to (6.1.4 (a)).
    #[error("anyPolicy is mapped")]
    AnyPolicyMapped,
    /// A policy is required at the end, and none that the user takes is valid (6.1.5 (g)).
    #[error("a policy is required, and none of the user's is valid")]
    NoUserPolicy,
}

impl Reason {
    /// The number by which the product names the reason, from 1 to 19.
    pub fn rank(self) -> u8
        ensures { result ≡ reason_rank self }
    {
        match self {
            Reason::Repeated => 1,
            Reason::Signature => 2,
            Reason::NotYet => 3,
            Reason::Expired => 4,
            Reason::Issuer => 5,
            Reason::NotPermitted => 6,
            Reason::Excluded => 7,
            Reason::ConstraintForm => 8,
            Reason::NotCa => 9,
            Reason::PathLength => 10,
            Reason::KeyCertSign => 11,
            Reason::Policy => 12,
            Reason::CriticalUnknown => 13,
            Reason::Purpose => 14,
            Reason::Empty => 15,
            Reason::TooLong => 16,
            Reason::NoValidPolicy => 17,
            Reason::AnyPolicyMapped => 18,
            Reason::NoUserPolicy => 19,
        }
    }

    /// The name of the reason, printed beside the number.
    pub fn name(self) -> &'static str
        ensures { result.now ≡ reason_name self }
    {
        match self {
            Reason::Repeated => "Repeated",
            Reason::Signature => "Signature",
            Reason::NotYet => "NotYet",
            Reason::Expired => "Expired",
            Reason::Issuer => "Issuer",
            Reason::NotPermitted => "NotPermitted",
            Reason::Excluded => "Excluded",
            Reason::ConstraintForm => "ConstraintForm",
            Reason::NotCa => "NotCa",
            Reason::PathLength => "PathLength",
            Reason::KeyCertSign => "KeyCertSign",
            Reason::Policy => "Policy",
            Reason::CriticalUnknown => "CriticalUnknown",
            Reason::Purpose => "Purpose",
            Reason::Empty => "Empty",
            Reason::TooLong => "TooLong",
            Reason::NoValidPolicy => "NoValidPolicy",
            Reason::AnyPolicyMapped => "AnyPolicyMapped",
            Reason::NoUserPolicy => "NoUserPolicy",
        }
    }
}

/// The outcome of a validation.
#[derive(Clone, Copy, Debug, PartialEq, Eq)]
pub enum Outcome {
    /// The path is valid.
    Good,
    /// The number of the first certificate that is refused, from 1 on, and why; 0 stands for the path itself.
    Bad(usize, Reason),
}

/// The outcome of one step of a validation.
#[derive(Clone, Copy, Debug, PartialEq, Eq)]
pub enum Step {
    /// The certificate meets all conditions.
    Passed,
    /// The certificate, or the path itself, is refused.
    Failed(Reason),
    /// All certificates have passed.
    Ended,
}
