//! Revocation lists and responses of the Online Certificate Status Protocol as they are read, and lists that are published by distribution
//! point. All of this crate are tests, over the public calls of `statements_crl` and `statements_ocsp`.
#![tactic(auto)]

#[cfg(test)]
mod lists;
#[cfg(test)]
mod points;
#[cfg(test)]
mod responses;

#[cfg(test)]
use std::alloc::Global;
#[cfg(test)]
use std::test::Fail;

/// The octets that hexadecimal digits stand for; `-` stands for none.
#[cfg(test)]
fn octets_of(alloc: Global, digits: &str) -> Result<Vec<u8>, Fail> {
    if digits == "-" {
        return Ok(Vec::new(alloc));
    }
    Ok(hex::decode(alloc, digits).map_err(|_| "hexadecimal")?)
}
