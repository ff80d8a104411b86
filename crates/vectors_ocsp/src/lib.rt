//! OCSP responses for tests, from texts in a small notation, under signatures that need no secret.
//!
//! # The notation of responses
//!
//!     ocsp(R,05 good,06 revoked 1){by D}{signed D}
//!
//! `ocsp(I,SERIAL STATUS,..)` is a response named and signed by I. It has a single response for each SERIAL; the id has the SHA-1 of the
//! name and of the key of I, or their SHA-256 where `#` stands first, as in `#05 good`. STATUS is `good`, `unknown`, `revoked` or `revoked
//! REASON`. thisUpdate and producedAt are 2025-06-01T00:00:00Z, nextUpdate is 2025-07-01T00:00:00Z. The certificates of `certs` are texts of
//! their own; an empty text puts the value `3000` there, which is no certificate. Names, keys, algorithms and signatures are those of
//! certificates.
//!
//! | Option | Says |
//! |---|---|
//! | `{signed X}` | the key that signs |
//! | `{from T}`, `{until T}` | thisUpdate, and producedAt with it; nextUpdate: 14 digits and `Z` |
//! | `{produced T}` | producedAt |
//! | `{open}` | no nextUpdate |
//! | `{by X}`, `{bykey X}` | the responder: name X, or the SHA-1 of key X |
//! | `{named X}`, `{key X}` | the name and the key whose hashes the ids have |
#![tactic(auto)]

mod options;
mod response;
mod response_notation;

pub use response::ocsp_response;
