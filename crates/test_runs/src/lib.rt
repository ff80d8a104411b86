//! Runs of the program: what it prints and what it refuses, the pages of the tutorial, deliveries, verdicts and comparisons. All of this
//! crate are tests, over the public calls of `cli_printing` and `cli`.
#![tactic(auto)]

#[cfg(test)]
mod output;
#[cfg(test)]
mod printed;
#[cfg(test)]
mod running;
#[cfg(test)]
mod validating;
#[cfg(test)]
mod walking;
