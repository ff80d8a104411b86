//! The lines of a session: what each asks for, and what its operands are.
#![tactic(auto)]

mod operand;
mod policies;
mod request;
mod searching;

pub use operand::{Operand, operand_of};
pub use request::{Request, RequestFault, request_of};
pub use searching::SearchFiles;
