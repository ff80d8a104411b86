//! What lists and responses share: why they are refused, and the parts that both are made of.
#![tactic(auto)]

mod fault;
mod parts;

pub use fault::{ReadingFault, StatementFault, StatementRefusal, StatementRule};
pub use parts::{
    is_reason, name_at, new_extension, outermost, take_algorithm, take_serial, take_signature,
};
