//! Verdicts on paths and statements from texts. `None` is answered if a text cannot be read, or there is no memory for it.

use crate::notation::{StatementText, octets_of, query_of, read_all, statements_of};
use relying_texts::{Verdict, verdict};
use std::alloc::{AllocError, Global};
use vectors::ToyVerifier;

/// The verdict on a path, the first being the anchor.
pub fn verdict_on(
    alloc: Global,
    path: &[&str],
    statements: &[StatementText],
    moment: i64,
) -> Option<Result<Verdict, AllocError>> {
    let octets = octets_of(alloc, path)?;
    let query = query_of(alloc, &octets, moment)?;
    let texts = statements_of(alloc, statements)?;
    let read = read_all(alloc, &texts)?;
    Some(verdict(alloc, &ToyVerifier, &query, &read))
}
