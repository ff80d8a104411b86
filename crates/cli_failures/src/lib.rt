//! Why a run of the program fails, how it says so, and the files that it reads.
#![tactic(auto)]

mod delivered;
mod extent;
mod failure;
mod files;
mod hints;
mod looking;
mod meanings;
mod topics;

pub use delivered::hint_after_delivery;
pub use extent::Extent;
pub use failure::{Failure, StoreRefusal};
pub use files::{
    Source, read_certificate, read_certificate_in, read_facts, read_list, read_response,
};
pub use hints::hint_to;
pub use looking::is_in_use;
pub use meanings::entries;
pub use topics::{explain_to, is_known};
