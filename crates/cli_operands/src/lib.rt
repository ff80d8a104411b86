//! What stands in the operands of a command line and of a line of a session: moments, purposes, names, fingerprints of signatures judged
//! elsewhere, and what is asked about certificates, read from the files that they name.
#![tactic(auto)]

mod certificate_values;
mod file_places;
mod moment;
mod name;
mod operand_files;
mod path_file;
mod path_files;
mod policies;
mod policy_query;
mod prints;
mod purpose;
mod search_files;
mod terms;
mod verdict_lines;

pub use moment::{moment_of, read_moment};
pub use name::{Name, identity_of, read_name};
pub use operand_files::{Operands, read_operands};
pub use policies::{PolicyTerms, read_policy_terms};
pub use prints::read_fingerprints;
pub use purpose::purpose_of;
pub use search_files::{SearchCertificates, SearchOperands, read_search_operands};
pub use terms::{Terms, read_terms};
pub use verdict_lines::{FingerprintsFault, fingerprints_of};
