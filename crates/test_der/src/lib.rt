//! Tests of what is read of octets: encodings, members, layouts, trees, numbers and times, worked by hand or by other tools; and of
//! values read from a source, however it is cut, also past 2^24 octets.
#![tactic(auto)]

#[cfg(test)]
mod encodings;
#[cfg(test)]
mod large;
#[cfg(test)]
mod members;
#[cfg(test)]
mod numbers;
#[cfg(test)]
mod sequences;
#[cfg(test)]
mod source;
#[cfg(test)]
mod times;
#[cfg(test)]
mod tree_rows;
#[cfg(test)]
mod values;

#[cfg(test)]
use std::process::Abort;

/// Stops a test where what it looked at is not so.
#[cfg(test)]
fn holds(rt: &impl Abort, is_so: bool, what: &str) {
    assert!(rt; is_so, "{what}");
}
