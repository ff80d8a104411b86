//! The certificates that the values of a file are.
ghost use Rattle.std.specs.Prelude.{◌≡◌, ◌<◌, ◌^◌, length, map, IfErr, IfOk, Ok};
ghost use Rattle.cert.specs.Certificate.{seen_certificate};
ghost use Rattle.path.specs.InProfile.{certificate_in};
ghost use Rattle.der_stream.specs.Sequence.{joined};
ghost use Rattle.cli_operands.specs.CertificateValues.{IsFailureAmong, IsFailureAt};
ghost use Rattle.cli_operands.specs.PathText.{AreTexts};

use cert::{CertFault, Certificate};
use cli_failures::Failure;
use path::read_certificate;
use statements_facts::Profile;
use std::alloc::Global;

/// The certificate that the value is, which starts at this place of the file.
///
/// A certificate is refused at an octet of its text or at its end, so the offset in the file cannot overflow.
fn certificate_at<'q, 'a>(
    alloc: Global,
    profile: Profile,
    file: &'a str,
    value: &'q [u8],
    start: usize,
) -> Result<Certificate<'q>, Failure<'a>>
    ensures reads { IfOk result (λ read.
        certificate_in profile value.now ≡ Ok (seen_certificate read)) }
    ensures fails { IfErr result (IsFailureAt profile value.now start file.entry.now) }
{
    match read_certificate(alloc, profile, value) {
        Ok(read) => Ok(read),
        Err(CertFault::Memory) => Err(Failure::NoMemory),
        Err(CertFault::Refused(rule, offset)) => match start.checked_add(offset) {
            Some(at) => Err(Failure::NoCertificate { file, rule, at }),
            None => Err(Failure::NoMemory),
        },
    }
}

/// The certificates that the values are, with which the file begins, each read before the next.
pub(crate) fn read_certificates<'q, 'a>(
    alloc: Global,
    profile: Profile,
    file: &'a str,
    values: &'q [Vec<u8>],
) -> Result<Vec<Certificate<'q>>, Failure<'a>>
    requires { length (joined (map (λ value. value.items) values.now)) < 2 ^ 64 }
    ensures reads { IfOk result (λ read. AreTexts profile (map (λ value. value.items) values.now)
        (map seen_certificate read.items)) }
    ensures fails { IfErr result
        (IsFailureAmong profile (map (λ value. value.items) values.now) file.entry.now) }
{
    let mut certificates = Vec::new(alloc);
    let mut start = 0;
    for value in values {
        let certificate = certificate_at(alloc, profile, file, value, start)?;
        if certificates.push(certificate).is_err() {
            return Err(Failure::NoMemory);
        }
        start += value.len();
    }
    Ok(certificates)
}
