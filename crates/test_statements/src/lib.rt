//! Tests of who signed what: fingerprints, lists of them, what the builders of `vectors` sign, and lists and responses in the notations of
//! `vectors` and `vectors_ocsp`, believed or refused, also where they and certificates are cut short or an octet is changed.
#![tactic(auto)]

#[cfg(test)]
mod asked;
#[cfg(test)]
mod built;
#[cfg(test)]
mod changed;
#[cfg(test)]
mod cut;
#[cfg(test)]
mod fingerprints;
#[cfg(test)]
mod forged;
#[cfg(test)]
mod hashes;
#[cfg(test)]
mod judged;
#[cfg(test)]
mod listed;
#[cfg(test)]
mod lists;
#[cfg(test)]
mod of_openssl;
#[cfg(test)]
mod responses;
#[cfg(test)]
mod rows;
#[cfg(test)]
mod telling;
#[cfg(test)]
mod whole;

#[cfg(test)]
use cert::Certificate;
#[cfg(test)]
use std::alloc::Global;
#[cfg(test)]
use std::process::Abort;
#[cfg(test)]
use std::test::Fail;

/// Stops a test where what it looked at is not so.
#[cfg(test)]
fn holds(rt: &impl Abort, is_so: bool, what: &str) {
    assert!(rt; is_so, "{what}");
}

/// The certificate that the octets are.
#[cfg(test)]
fn read_certificate<'a>(alloc: Global, octets: &'a [u8]) -> Result<Certificate<'a>, Fail> {
    let read = Certificate::read(alloc, octets).ok();
    Ok(read.ok_or("a certificate")?)
}
