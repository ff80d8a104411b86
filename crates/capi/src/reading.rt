//! `x509check_read_certificate`.

ghost use Rattle.cert.specs.Certificate.{certificate};
ghost use Rattle.capi.specs.Fields.{TellsReading, IsRefusalOf};

use crate::answer::CertificateAnswer;
use crate::fields::Fields;
use capi_values::der_fault;
use cert::{CertFault, Certificate};
use std::alloc::Global;

/// What is answered if the octets are refused.
fn refusal(fault: CertFault) -> CertificateAnswer
    ensures { IsRefusalOf result fault }
{
    match fault {
        CertFault::Refused(rule, at) => CertificateAnswer {
            fault: u32::from(rule.number()),
            der_fault: der_fault(rule),
            offset: at,
            fields: Fields::default(),
        },
        CertFault::Memory => CertificateAnswer {
            fault: u32::from(fault.number()),
            ..CertificateAnswer::default()
        },
    }
}

/// Reads a certificate, as `Certificate::read`, or answers the first fault.
#[unsafe(no_mangle)]
pub extern "C" fn x509check_read_certificate(alloc: Global, octets: &[u8]) -> CertificateAnswer
    ensures { TellsReading octets.now result (certificate octets.now) }
{
    match Certificate::read(alloc, octets) {
        Ok(certificate) => CertificateAnswer {
            fault: 0,
            der_fault: 0,
            offset: 0,
            fields: Fields::of(&certificate),
        },
        Err(fault) => refusal(fault),
    }
}
