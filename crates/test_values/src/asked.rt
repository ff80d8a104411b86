//! What a verifier may be asked about paths and statements.

mod asking;
mod rows;
