//! The texts that are damaged, as they are whole.

use std::alloc::Global;
use vectors::{certificate, revocation_list};
use vectors_ocsp::ocsp_response;

/// What is damaged. The issuer `ca(R,R)` signed each.
#[derive(Clone, Copy)]
pub enum Text {
    Certificate,
    List,
    Response,
}

/// `None` where there is no memory.
pub fn octets_of(alloc: Global, text: Text) -> Option<Vec<u8>> {
    match text {
        Text::Certificate => certificate(alloc, "ee(T,R)").ok(),
        Text::List => revocation_list(alloc, "crl(R,5,[05 1])").ok(),
        Text::Response => ocsp_response(alloc, "ocsp(R,05 good)", &[]).ok(),
    }
}
