//! What is answered if memory is refused.

use crate::building::{RowFault, certificate, extension};
use cert::{CertFault, Certificate};
use cert_points::DistributionPoints;
use std::alloc::Global;
use std::test::Fail;

/// Two points of one name each, 860161 and 860162.
const TWO_POINTS: &[u8] =
    b"\x30\x12\x30\x07\xA0\x05\xA0\x03\x86\x01a\x30\x07\xA0\x05\xA0\x03\x86\x01b";

fn with_two_points(alloc: Global) -> Result<Vec<u8>, RowFault> {
    let own = extension(alloc, &[0x55, 0x1D, 0x1F], &[], TWO_POINTS)?;
    certificate(alloc, Some(&own))
}

/// Under how many names complete lists may be published.
fn count_of_names(alloc: Global, certificate: &Certificate<'_>) -> Result<usize, CertFault> {
    match DistributionPoints::read(alloc, certificate)? {
        None => Ok(0),
        Some(read) => Ok(read.complete_names(alloc)?.len()),
    }
}

/// For every refused allocation: the answer is that of ample memory, or that memory ran out.
#[test]
fn points_want_memory_or_answers(rt: HostRuntime) -> Result<(), Fail> {
    let alloc = rt.alloc();
    let Ok(octets) = with_two_points(alloc) else {
        return Ok(());
    };
    let Ok(certificate) = Certificate::read(alloc, &octets) else {
        return Ok(());
    };
    let counted = count_of_names(alloc, &certificate);
    assert!(rt; counted == Ok(2) || counted == Err(CertFault::Memory));
    Ok(())
}
