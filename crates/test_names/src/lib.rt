//! Rows of names: distinguished names as they are read, compared and keyed, general names and the bases of subtrees, worked by hand
//! and taken from the standards. All of this crate are tests, over the public calls of `names`
//! and `names_order`.
#![tactic(auto)]

#[cfg(test)]
mod distinguished;
#[cfg(test)]
mod forms;
#[cfg(test)]
mod general_names;
#[cfg(test)]
mod ordered;
