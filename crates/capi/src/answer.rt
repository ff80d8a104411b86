//! What the calls answer: a fault's number and its place.

use crate::fields::Fields;

/// Whether octets are DER: 0, or the fault's number, and the offset of the value at fault.
#[derive(Clone, Copy, Debug, PartialEq, Eq, Default)]
#[repr(C)]
pub struct Answer {
    pub fault: u32,
    pub offset: usize,
}

/// A certificate if `fault` is 0; else why the octets are none.
#[derive(Clone, Copy, Debug, PartialEq, Eq, Default)]
#[repr(C)]
pub struct CertificateAnswer {
    pub fault: u32,
    /// The number of the rule of DER that is broken, if `fault` is 21; else 0.
    pub der_fault: u32,
    pub offset: usize,
    pub fields: Fields,
}
