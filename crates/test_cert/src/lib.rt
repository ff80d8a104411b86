//! Rows of what is read of certificates and of their parts, worked by hand. All of this crate are tests, over the public calls of
//! `cert`.
#![tactic(auto)]

#[cfg(test)]
mod building;
#[cfg(test)]
mod fields;
#[cfg(test)]
mod name_values;
#[cfg(test)]
mod parts;
#[cfg(test)]
mod refused;
#[cfg(test)]
mod values;

#[cfg(test)]
use std::process::Abort;

/// Stops a test where what it looked at is not so.
#[cfg(test)]
fn holds(rt: &impl Abort, is_so: bool, what: &str) {
    assert!(rt; is_so, "{what}");
}
