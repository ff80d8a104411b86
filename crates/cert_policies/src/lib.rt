//! What the extensions of certificates say of policies (RFC 5280, 4.2.1.4, 4.2.1.5, 4.2.1.11 and 4.2.1.14), for who asks for policies.
#![tactic(auto)]

mod any_policy;
mod constraints;
mod extensions;
mod layout;
mod mappings;
mod number;
mod policies;
mod processed;

pub use extensions::PolicyExtensions;
pub use layout::policy_layout_laws;
pub use mappings::PolicyMapping;
pub use processed::are_policies_processed;
