//! Tests of work on stores that stops at each call of the database file or its log: what is left is what was there before, or the whole
//! work done, and the disk that failed is told as that, 71; and of the limits at which statements and rows are refused.
#![tactic(auto)]

#[cfg(test)]
mod disks;
#[cfg(test)]
mod finding;
#[cfg(test)]
mod limits;
#[cfg(test)]
mod putting;
#[cfg(test)]
mod refusing;
#[cfg(test)]
mod stopping;
#[cfg(test)]
mod trials;
#[cfg(test)]
mod working;
