//! Distinguished names (X.501, 9.2; RFC 5280, 4.1.2.4).

ghost use Rattle.std.specs.Prelude.{◌≡◌, ◌↔◌, ◌<◌, ◌^◌, [], length, IsTrue, MatchOption};
ghost use Rattle.names_distinguished.specs.DistinguishedName.{NamesMatch, IsWithin, HasKind, matching, is_within};
ghost use Rattle.asn.specs.Reading.{remaining, left};
ghost use Rattle.names_distinguished.specs.NameParts.{AreRdns};

use crate::rdn::Rdn;
use asn::Cursor;

/// Relative names in order, or those of them that have not been looked at yet.
#[derive(Clone, Copy)]
pub(crate) struct RdnSequence<'a> {
    pub(crate) rdns: Cursor<'a>,
    pub ghost read: { ∥ AreRdns (left rdns).values ∥₁ },
    pub ghost short: { length (remaining rdns).octets < 2 ^ 31 },
}

impl<'a> RdnSequence<'a> {
    ghost use Rattle.names_distinguished.specs.NameView.{maps_of, IsFirstRdn, LeavesBehind};

    /// The first relative name, and those after it.
    #[tactic(auto, unfolding(crate::specs::NameView::maps_of))]
    pub(crate) fn split_first(&self) -> Option<(Rdn<'a>, RdnSequence<'a>)>
        ensures { MatchOption result (maps_of self.now ≡ []) (IsFirstRdn self.now) }
    {
        let mut rdns = self.rdns;
        let rdn = rdns.next()?;
        match rdn.inside() {
            Some(attributes) => Some((Rdn { attributes }, RdnSequence { rdns })),
            None => unreachable!(),
        }
    }

    /// Whether the name has no relative name.
    pub(crate) fn is_empty(&self) -> bool
        ensures { IsTrue result ↔ (maps_of self.now ≡ []) }
    {
        self.split_first().is_none()
    }

    /// What follows the first relative names, if these match all those of the other, in order.
    fn after(&self, other: &RdnSequence<'_>) -> Option<RdnSequence<'a>>
        ensures { LeavesBehind self.now other.now result }
    {
        let mut inner = *self;
        let mut outer = *other;
        while let Some((wanted, outer_rest)) = outer.split_first() {
            match inner.split_first() {
                Some((first, inner_rest)) if first.matches(&wanted) => inner = inner_rest,
                _ => return None,
            }
            outer = outer_rest;
        }
        Some(inner)
    }

    /// Whether the name begins with all relative names of the other.
    pub(crate) fn within(&self, other: &RdnSequence<'_>) -> bool
        ensures decides { IsTrue result ↔ IsWithin (maps_of self.now) (maps_of other.now) }
        ensures test { result ≡ is_within (maps_of self.now) (maps_of other.now) }
    {
        self.after(other).is_some()
    }

    /// Whether the names have as many relative names, which match in order.
    pub(crate) fn matches(&self, other: &RdnSequence<'_>) -> bool
        ensures decides { IsTrue result ↔ NamesMatch (maps_of self.now) (maps_of other.now) }
        ensures test { result ≡ matching (maps_of self.now) (maps_of other.now) }
    {
        match self.after(other) {
            Some(rest) => rest.is_empty(),
            None => false,
        }
    }

    /// Whether some attribute has the type, whose object identifier has these contents.
    pub(crate) fn has(&self, kind: &[u8]) -> bool
        ensures { IsTrue result ↔ HasKind kind.now (maps_of self.now) }
    {
        let mut rest = *self;
        while let Some((rdn, after)) = rest.split_first() {
            if rdn.of_kind(kind).is_some() {
                return true;
            }
            rest = after;
        }
        false
    }
}
