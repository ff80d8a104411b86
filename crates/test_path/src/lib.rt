//! Paths of certificates in the notation of `vectors`, validated; and paths found among certificates in any order: rows from RFC 4158 and
//! from cases of the field, and bags that were made to be hard. All of this crate are tests, over the public calls of `path` and
//! `path_search`.
#![tactic(auto)]

#[cfg(test)]
mod budgets;
#[cfg(test)]
mod building;
#[cfg(test)]
mod constraints;
#[cfg(test)]
mod finding;
#[cfg(test)]
mod growing;
#[cfg(test)]
mod limits;
#[cfg(test)]
mod memory;
#[cfg(test)]
mod ranks;
#[cfg(test)]
mod reading;
#[cfg(test)]
mod rows;
#[cfg(test)]
mod searching;
#[cfg(test)]
mod steps;
#[cfg(test)]
mod whys;
