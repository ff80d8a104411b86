//! Tests of runs over texts and disks in memory, where what a file holds and what stands at a path are relations of octets and statements;
//! and of sessions, lines and their answers, over a keeper that answers as it was told.
#![tactic(auto)]

#[cfg(test)]
mod answers;
#[cfg(test)]
mod ending;
#[cfg(test)]
mod keeping;
mod lasting;
#[cfg(test)]
mod later_runs;
mod laws;
#[cfg(test)]
mod policies;
#[cfg(test)]
mod running;
mod shelf;
#[cfg(test)]
mod stopping;
#[cfg(test)]
mod walking;

pub use lasting::LastingStore;
pub use laws::shelf_laws;
pub use shelf::{Disks, Kept, Medium, Shelf, Text};
