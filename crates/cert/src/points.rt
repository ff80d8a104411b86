//! The names of the points at which lists about a certificate are published.

ghost use Rattle.std.specs.Prelude.{◌≡◌};
ghost use Rattle.cert.specs.CertificatePoints.{no_points, seen_points};

use std::alloc::Global;

/// The full names of the distribution points of a certificate (RFC 5280, 4.2.1.13), each a general name as its octets.
#[derive(Drop)]
pub struct CertificatePoints<'a> {
    /// Those of the points without reasons and without cRLIssuer, in order: lists there are about the certificate, whatever the reason.
    pub complete: Vec<&'a [u8]>,
    /// Those of the others, in order: what a list there revokes is revoked, but it does not tell of all that are.
    pub limited: Vec<&'a [u8]>,
}

impl<'a> CertificatePoints<'a> {
    /// Those of a certificate without points.
    pub fn none(alloc: Global) -> CertificatePoints<'a>
        ensures { seen_points result ≡ no_points }
    {
        CertificatePoints {
            complete: Vec::new(alloc),
            limited: Vec::new(alloc),
        }
    }
}
