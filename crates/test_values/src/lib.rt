//! Tests of plain values: `==` answers whether two are the same, limits are what the profile says, and a fault is printed as its sentence;
//! and of verdicts on paths by statements at hand, and what a verifier may be asked about them, in the notations of `vectors` and
//! `vectors_ocsp`.
#![tactic(auto)]

#[cfg(test)]
mod asked;
#[cfg(test)]
mod asking;
#[cfg(test)]
mod comparisons;
mod equality;
#[cfg(test)]
mod finding;
mod limits;
#[cfg(test)]
mod notation;
#[cfg(test)]
mod rows;
#[cfg(test)]
mod texts;
