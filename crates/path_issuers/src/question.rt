//! What a search may ask a verifier: whether one certificate at hand issued another.

ghost use Rattle.std.specs.Prelude.{◌≡◌};
ghost use Rattle.cert.specs.Certificate.{seen_certificate};
ghost use Rattle.path_issuers.specs.Links.{certificate_at};
ghost use Rattle.path_issuers.specs.Questions.{issuer_at};
ghost use Rattle.path_issuers.specs.View.{seen_search};

use crate::search::Search;
use cert::Certificate;

/// One that may have issued certificates, by its place.
#[derive(Clone, Copy, Debug, PartialEq, Eq)]
pub enum Issuer {
    /// Among the anchors.
    Anchor(usize),
    /// Among the certificates of the bag.
    Bag(usize),
}

/// Whether the issuer issued the certificate.
#[derive(Clone, Copy, Debug, PartialEq, Eq)]
pub struct SearchQuestion {
    pub issuer: Issuer,
    /// Its place in the bag; the place behind the last one is that of the target.
    pub certificate: usize,
}

impl<'p, 'c> Search<'p, 'c> {
    /// The certificate at a place of the bag; the target, if there is none.
    pub fn certificate_at(&self, place: usize) -> &'p Certificate<'c>
        ensures { seen_certificate result.now ≡ certificate_at (seen_search self.now) place }
    {
        self.bag.get(place).unwrap_or(self.target)
    }

    /// The certificate of an issuer; the target, if there is none.
    pub fn issuer_at(&self, issuer: Issuer) -> &'p Certificate<'c>
        ensures { seen_certificate result.now ≡ issuer_at (seen_search self.now) issuer }
    {
        match issuer {
            Issuer::Anchor(place) => self.anchors.get(place).unwrap_or(self.target),
            Issuer::Bag(place) => self.certificate_at(place),
        }
    }
}
