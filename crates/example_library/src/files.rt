//! What the example reads.

use crate::failure::Failure;
use std::fs;

/// An anchor, the certificates below it, two lists and a response, each in DER.
#[derive(Drop)]
pub struct Octets {
    pub root: Vec<u8>,
    pub ca: Vec<u8>,
    pub mail: Vec<u8>,
    pub root_list: Vec<u8>,
    pub ca_list: Vec<u8>,
    pub response: Vec<u8>,
}

impl Octets {
    /// The octets of the files in the folder where the program runs.
    pub fn read(rt: &HostRuntime) -> Result<Octets, Failure> {
        Ok(Octets {
            root: fs::read(rt, "root.der")?,
            ca: fs::read(rt, "ca.der")?,
            mail: fs::read(rt, "mail.der")?,
            root_list: fs::read(rt, "root.crl")?,
            ca_list: fs::read(rt, "ca.crl")?,
            response: fs::read(rt, "ca.ocsp")?,
        })
    }
}
