//! Certificates with the points at which lists about them are published.

ghost use Rattle.std.specs.Prelude.{◌≡◌, IfErr, IfOk, OnOk};
ghost use Rattle.cert.specs.Certificate.{seen_certificate};
ghost use Rattle.cert.specs.CertificatePoints.{seen_points};
ghost use Rattle.cert.specs.Fault.{FailsUnlessFull};
ghost use Rattle.cert_points.specs.PointReading.{certificate_points, seen_found};
ghost use Rattle.cert_points.specs.Published.{HasTakenPoints, names_if_found};

use crate::points::DistributionPoints;
use cert::{CertFault, Certificate, CertificatePoints};
use std::alloc::{AllocError, Global};

/// The names of the points, if there are any.
fn names_at<'a>(
    alloc: Global,
    points: Option<DistributionPoints<'a>>,
) -> Result<CertificatePoints<'a>, AllocError>
    ensures { IfOk result (λ names. seen_points names ≡ names_if_found (seen_found points.entry)) }
{
    match points {
        None => Ok(CertificatePoints::none(alloc)),
        Some(points) => {
            let complete = points.complete_names(alloc)?;
            let limited = points.limited_names(alloc)?;
            Ok(CertificatePoints { complete, limited })
        }
    }
}

/// Takes the names under which lists about a certificate are published (RFC 5280, 4.2.1.13) into its `points`: the full names of its points,
/// in order, those without reasons and without cRLIssuer apart. Verdicts then ask for lists at these names too. Else the first fault in the
/// extension, and the certificate is as it was.
pub fn take_points<'a>(alloc: Global, certificate: &mut Certificate<'a>) -> Result<(), CertFault>
    ensures taken { OnOk result (HasTakenPoints
        (seen_certificate certificate.old) (seen_certificate certificate.new)) }
    ensures refused { IfErr result (λ fault.
        FailsUnlessFull fault
        (certificate_points (seen_certificate certificate.old).extensions.values)) }
    ensures same { IfErr result (λ _. certificate.new ≡ certificate.old) }
{
    let points = DistributionPoints::read(alloc, certificate)?;
    certificate.points = names_at(alloc, points)?;
    Ok(())
}
