//! What the wide profile has beyond the stated one: paths whose constraints on mail addresses and on URIs are processed, and verdicts on
//! them, by rows from RFC 5280, 4.2.1.10 and 6.1, and by hand; critical extensions that it processes, and purposes that keyUsage goes with;
//! and verdicts by lists that are published by distribution point (5.2.5 and 6.3.3), in the notations of `vectors`. All of this crate are
//! tests, over the public calls of `path` and `relying_texts`.
#![tactic(auto)]

#[cfg(test)]
mod asking;
#[cfg(test)]
mod at_points;
#[cfg(test)]
mod building;
#[cfg(test)]
mod critical;
#[cfg(test)]
mod malformed;
#[cfg(test)]
mod paths;
#[cfg(test)]
mod purposes;
#[cfg(test)]
mod verdicts;
