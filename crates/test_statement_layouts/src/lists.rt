//! Revocation lists that are read, or refused.

mod accepted;
mod reading;
mod refused;
mod sixteen;
