//! The outcome of a validation that processes policies.

use path::Reason;
use path_policies::PolicySets;

/// The outcome of a validation that processes policies.
#[derive(Drop)]
pub enum OutcomeWithPolicies<'c> {
    /// The path is valid, under these policies.
    Good(PolicySets<'c>),
    /// The number of the first certificate that is refused, from 1 on, and why; 0 stands for the path itself.
    Bad(usize, Reason),
}
