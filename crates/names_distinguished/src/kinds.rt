//! The types of the attributes of an RDN, in order.

ghost use Rattle.std.specs.Prelude.{◌≡◌, [], MatchOption};
ghost use Rattle.asn.specs.Reading.{seen_tlv, left};
ghost use Rattle.names_distinguished.specs.Repetition.{comes_before, first_body, kind_at, kinds_of, IsFirstKind};

use asn::{Cursor, Tlv};

/// Where an attribute stands, and its type: the contents of its first member.
#[derive(Clone, Copy)]
pub(crate) struct PlacedKind<'a> {
    pub(crate) at: usize,
    pub(crate) kind: &'a [u8],
}

/// The types of the attributes that have not been looked at yet.
#[derive(Clone, Copy)]
pub(crate) struct Kinds<'a> {
    pub(crate) attributes: Cursor<'a>,
}

/// Whether a type comes before another: the shorter one does, and of types of one length that of lesser octets. In an RDN
/// the attributes of one size stand together, and in this order.
pub(crate) fn is_kind_before(kind: &[u8], other: &[u8]) -> bool
    ensures { result ≡ comes_before kind.now other.now }
{
    if kind.len() == other.len() {
        kind.cmp(other).is_lt()
    } else {
        kind.len() < other.len()
    }
}

fn first_body<'a>(members: Cursor<'a>) -> &'a [u8]
    ensures { result.now ≡ first_body (left members.entry).values }
{
    let mut members = members;
    match members.next() {
        Some(kind) => kind.body,
        None => &[],
    }
}

#[tactic(auto, unfolding(crate::specs::Repetition::kind_at))]
fn attribute_type<'a>(attribute: Tlv<'a>) -> &'a [u8]
    ensures { result.now ≡ kind_at (seen_tlv attribute.entry) }
{
    match attribute.inside() {
        Some(members) => first_body(members),
        None => &[],
    }
}

impl<'a> Kinds<'a> {
    /// The next type.
    #[tactic(auto, unfolding(crate::specs::Repetition::kinds_left))]
    pub(crate) fn next(&mut self) -> Option<PlacedKind<'a>>
        ensures { MatchOption result (kinds_of self.old ≡ []) (IsFirstKind self.old self.new) }
    {
        let attribute = self.attributes.next()?;
        Some(PlacedKind {
            at: attribute.at,
            kind: attribute_type(attribute),
        })
    }
}
