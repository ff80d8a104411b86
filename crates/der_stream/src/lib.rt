//! DER values (X.690) from a source of octets: one at a time, or one after the other.
#![tactic(auto)]

mod front;
mod reading;
mod sequence;

pub use der::{Fault, Rule};
pub use front::{front_laws, read_front};
pub use reading::{ReadFault, read_one, stream_laws};
pub use sequence::{PathOctets, path_octets};
