//! What a store holds, as text: a line for each list and each response. What is written goes to a writer piece by piece, and takes no
//! memory.
#![tactic(auto)]

mod calendar;
mod civil;
mod issuer;
mod laws;
mod line;
mod listed;
mod moment;
mod number;
mod point;

pub use laws::{moment_law, point_law};
pub use listed::listing_to;
