//! The distribution points of a certificate that was read.

ghost use Rattle.cert.specs.Certificate.{seen_certificate};
ghost use Rattle.cert.specs.Fault.{GivesUnlessFull};
ghost use Rattle.cert_points.specs.PointReading.{certificate_points, seen_found};

use crate::points::DistributionPoints;
use cert::{CertFault, Certificate, ExtensionKind};
use std::alloc::Global;

impl<'a> DistributionPoints<'a> {
    /// Reads the distribution points of a certificate; `None` without cRLDistributionPoints. Else the first fault in the value of that
    /// extension, as of `of_value`, with its offset in the text handed to `asn::whole`.
    #[tactic(auto, unfolding(crate::specs::PointReading::certificate_points))]
    pub fn read(
        alloc: Global,
        certificate: &Certificate<'a>,
    ) -> Result<Option<DistributionPoints<'a>>, CertFault>
        ensures { GivesUnlessFull seen_found result
            (certificate_points (seen_certificate certificate.now).extensions.values) }
    {
        let values = &certificate.extensions.values;
        match values.of(ExtensionKind::DistributionPoints) {
            None => Ok(None),
            Some(octet_string) => Ok(Some(DistributionPoints::of_value(alloc, octet_string)?)),
        }
    }
}
