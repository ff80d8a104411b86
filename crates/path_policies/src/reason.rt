//! Why a certificate of a path is refused for its policies.

use asn::Oid;
use thiserror::Error;

/// Why a certificate is refused for its policies. Of several reasons at one certificate the first of these is reported.
#[derive(Clone, Copy, Debug, PartialEq, Eq, Error)]
pub enum PolicyReason {
    /// A policy is required, and none is valid (RFC 5280, 6.1.3 (f)).
    #[error("a policy is required, and none is valid")]
    NoValidPolicy,
    /// anyPolicy is mapped, or mapped to (6.1.4 (a)).
    #[error("anyPolicy is mapped")]
    AnyPolicyMapped,
    /// A policy is required at the end, and none that the user takes is valid (6.1.5 (g)).
    #[error("a policy is required, and none of the user's is valid")]
    NoUserPolicy,
}

/// The sets of policies at the end of a path (RFC 5280, 6.1.5 (g)), each policy once, in ascending order of the contents octets. anyPolicy
/// among them stands for every policy.
#[derive(Drop)]
pub struct PolicySets<'c> {
    /// The policies under which the authorities have issued.
    pub authority_constrained: Vec<Oid<'c>>,
    /// Those of them that the user takes.
    pub user_constrained: Vec<Oid<'c>>,
}

/// The outcome of the processing of policies.
#[derive(Drop)]
pub enum PolicyOutcome<'c> {
    /// All certificates are acceptable for their policies.
    Good(PolicySets<'c>),
    /// The number of the first certificate that is not, from 1 on, and why.
    Bad(usize, PolicyReason),
}
