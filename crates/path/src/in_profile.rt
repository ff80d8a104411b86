//! Certificates as a profile reads them.

ghost use Rattle.cert.specs.Certificate.{seen_certificate};
ghost use Rattle.cert.specs.Fault.{GivesUnlessFull};
ghost use Rattle.path.specs.InProfile.{certificate_in, wide_certificate, CertificateIsExactIn, CertificateIsUniqueIn, ProfilesDifferInPointsAndHosts, StatedCertificateHasNeither, WideFaultIsOfPointsOrHosts};

use cert::{CertFault, Certificate, certificate_laws};
use cert_hosts::{certificate_hosts_laws, take_hosts};
use cert_points::{point_layout_laws, take_points};
use statements_facts::Profile;
use std::alloc::Global;

/// The certificate, with the names of its points, its mail addresses and hosts.
#[tactic(auto, using(crate::proofs::WideCertificates::unread, crate::proofs::WideCertificates::taken))]
fn read_wide<'a>(alloc: Global, octets: &'a [u8]) -> Result<Certificate<'a>, CertFault>
    ensures { GivesUnlessFull seen_certificate result (wide_certificate octets.now) }
{
    let mut certificate = Certificate::read(alloc, octets)?;
    take_points(alloc, &mut certificate)?;
    take_hosts(alloc, &mut certificate)?;
    Ok(certificate)
}

/// Reads a certificate from DER: as `Certificate::read`, and in the wide profile with the names of its points, as `take_points` takes
/// them, and with its mail addresses and hosts, as `take_hosts` does. Else the first fault of the certificate is reported, or that of its
/// points if it has none, or that of its mail addresses and hosts if these have none.
///
/// Time and memory are those of `Certificate::read`, and in the wide profile those of two more walks over it, with a list of the points, one
/// of their names, and lists of its mail addresses, hosts and bases.
pub fn read_certificate<'a>(
    alloc: Global,
    profile: Profile,
    octets: &'a [u8],
) -> Result<Certificate<'a>, CertFault>
    ensures { GivesUnlessFull seen_certificate result (certificate_in profile octets.now) }
{
    match profile {
        Profile::Stated => Certificate::read(alloc, octets),
        Profile::Wide => read_wide(alloc, octets),
    }
}

/// In either profile octets are read as a certificate exactly if they are one, and in the wide one if it also says points, and what it says
/// of mail addresses and hosts, all of which it then has; its fields are the only ones. What the stated profile reads has neither. The wide
/// one reads it as the same but for these, or refuses it for a fault in them alone.
pub fn certificate_profile_laws()
    ensures exact { (profile : _) → CertificateIsExactIn profile }
    ensures unique { (profile : _) → CertificateIsUniqueIn profile }
    ensures stated { StatedCertificateHasNeither }
    ensures wide { ProfilesDifferInPointsAndHosts }
    ensures fault { WideFaultIsOfPointsOrHosts }
{
    certificate_laws();
    point_layout_laws();
    certificate_hosts_laws();
}
