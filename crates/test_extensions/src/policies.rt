//! Certificate policies of paths: rows by hand from RFC 5280, RFC 9618 and the NIST's tests of path validation (PKITS), and rows at random,
//! whose answers are those of a model that builds the tree of RFC 5280.

mod asking;
mod by_hand;
mod hostile;
mod processing;
mod random;
mod reading;
