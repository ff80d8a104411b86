//! Paths whose policies are processed: what is refused first, the verdict with its policies, and what is found among certificates in any
//! order. All of this crate are tests, over the public calls of `path_with_policies` and `relying_policies`.
#![tactic(auto)]

#[cfg(test)]
mod asking;
#[cfg(test)]
mod certificates;
#[cfg(test)]
mod finding;
#[cfg(test)]
mod paths;
#[cfg(test)]
mod pkits;
#[cfg(test)]
mod verdicts;
