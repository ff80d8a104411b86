//! The end of a path, which grows upward.

ghost use Rattle.std.specs.Prelude.{◌≡◌, ◌↔◌, IsTrue};
ghost use Rattle.std.specs.List.{list_any};
ghost use Rattle.cert.specs.Certificate.{seen_certificate};
ghost use Rattle.path_search.specs.Authority.{IsTop, has_octets_at, seen_at, seen_tail};
ghost use Rattle.path_issuers.specs.Factors.{Lacks, others_above_target};

use cert::Certificate;

/// The end of a path: a target, and the places in a bag of the certificates above it, from the target upward.
#[derive(Clone, Copy)]
pub struct Tail<'p, 'c> {
    pub bag: &'p [Certificate<'c>],
    pub target: &'p Certificate<'c>,
    pub above: &'p [usize],
}

impl<'p, 'c> Tail<'p, 'c> {
    /// The certificate at a place of the bag, or the target if there is none.
    pub(crate) fn at(&self, place: usize) -> &'p Certificate<'c>
        ensures { seen_certificate result.now ≡ seen_at self.now place }
    {
        self.bag.get(place).unwrap_or(self.target)
    }

    /// The certificate at the top.
    pub fn top(&self) -> &'p Certificate<'c>
        ensures { IsTop self.now (seen_certificate result.now) }
    {
        match self.above.last() {
            None => self.target,
            Some(place) => self.at(*place),
        }
    }

    /// Whether the certificate at the place has the octets.
    fn has_at(&self, place: usize, octets: &[u8]) -> bool
        ensures { result ≡ has_octets_at self.now octets.now place }
    {
        self.at(place).octets == octets
    }

    /// Whether a certificate above the target has the octets.
    fn has_above(&self, octets: &[u8]) -> bool
        ensures { result ≡ list_any (has_octets_at self.now octets.now) self.now.above.now }
    {
        self.above.iter().any(|place| self.has_at(*place, octets))
    }

    /// Whether no certificate has the octets.
    pub fn lacks(&self, octets: &[u8]) -> bool
        ensures { IsTrue result ↔ Lacks octets.now (seen_tail self.now) }
    {
        self.target.octets != octets && !self.has_above(octets)
    }

    /// How many certificates above the target are not self-issued.
    pub(crate) fn count_others(&self) -> usize
        ensures { result ≡ others_above_target (seen_tail self.now) }
    {
        self.above
            .iter()
            .filter(|place| !self.at(**place).self_issued())
            .count()
    }
}
