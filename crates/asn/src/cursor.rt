//! The value of a text, and the values inside a value, from left to right.

ghost use Rattle.std.specs.Prelude.{◌≡◌, ◌↔◌, ◌+◌, ◌<◌, ◌^◌, length, IsSome, IsOk, IfOk, IfErr, IfNone, IfSome, true};
ghost use Rattle.der.specs.Value.{Value};
ghost use Rattle.der.specs.Identifier.{is_constructed};
ghost use Rattle.der.specs.Length.{contents_limit};
ghost use Rattle.der.specs.Encoding.{Encodes};
ghost use Rattle.der.specs.FirstFault.{IsFirstFault};
ghost use Rattle.asn.specs.Part.{IsWhole, BeginsEncoded};
ghost use Rattle.asn.specs.Place.{seen_tlv, remaining, text_at, text_behind, octets_left, ends, front, behind, body_place, SplitsAt, SplitsOff};
ghost use Rattle.asn.specs.Members.{left, members, none_left, next_at, TakesFirst};
ghost use Rattle.asn.specs.Shows.{ShowsEncoded, ShowsContents, ShowsFirst, CutsBehindValue};

use crate::tlv::{Cursor, Tlv};
use der::{Fault, Header, check, is_constructed_form};

/// The value that stands at the front of the octets, and the octets behind it.
#[inline(always)]
pub(crate) fn front_of<'a>(octets: &'a [u8], at: usize) -> (Tlv<'a>, &'a [u8])
    requires encoded { ∥ BeginsEncoded octets.now ∥₁ }
    requires fits { at + length octets.now < 2 ^ 64 }
    ensures splits { SplitsAt at octets.now result.0 result.1.now }
    ensures first { seen_tlv result.0 ≡ front (text_at octets.now at) }
    ensures others { text_behind at result.0 result.1.now ≡ behind (text_at octets.now at) }
    ensures value { CutsBehindValue octets.now result.0 result.1.now }
{
    let header = Header::known(octets);
    let (whole, rest) = octets.split_at(header.len + header.contents);
    let (_, body) = whole.split_at(header.len);
    let tag = header.identifier;
    (
        Tlv {
            tag,
            body,
            whole,
            at,
        },
        rest,
    )
}

/// The one value that the octets encode.
pub(crate) fn whole_at(octets: &[u8], at: usize) -> Tlv<'_>
    requires encoded { ∥ IsWhole octets.now ∥₁ }
    requires fits { at + length octets.now < 2 ^ 64 }
    ensures place { seen_tlv result ≡ text_at octets.now at }
    ensures shows { ShowsEncoded octets.now result }
{
    let (tlv, _) = front_of(octets, at);
    tlv
}

/// The one value that the octets encode, or the first fault, as `check` answers it (never `Fault::Memory`). Time is linear in the octets;
/// no memory is taken.
pub fn whole(octets: &[u8]) -> Result<Tlv<'_>, Fault>
    ensures accepts { IsOk result ↔ ((value : Value) × Encodes octets.now value) }
    ensures refuses { IfErr result (λ fault. IsFirstFault octets.now fault) }
    ensures place { IfOk result (λ tlv. seen_tlv tlv ≡ text_at octets.now 0) }
    ensures shows { IfOk result (ShowsEncoded octets.now) }
{
    check(octets)?;
    Ok(whole_at(octets, 0))
}

impl<'a> Tlv<'a> {
    /// The same value as a text of its own: its offset is 0, and those of the values inside count from it.
    pub fn alone(&self) -> Tlv<'a>
        ensures place { seen_tlv result ≡ text_at self.now.whole.now 0 }
        ensures same { (result.tag ≡ self.now.tag) × (result.body.now ≡ self.now.body.now) }
    {
        Tlv {
            tag: self.tag,
            body: self.body,
            whole: self.whole,
            at: 0,
        }
    }

    /// The offset of the contents octets in the text handed to `whole`.
    #[tactic(auto, unfolding(crate::specs::Place::body_place))]
    pub fn body_at(&self) -> usize
        ensures place { result ≡ (body_place (seen_tlv self.now)).at }
        ensures end { result + length self.now.body.now ≡ self.now.at + length self.now.whole.now }
    {
        let header = self.whole.len() - self.body.len();
        header + self.at
    }

    /// The values inside this one, in order; `None` if it is primitive.
    pub fn inside(&self) -> Option<Cursor<'a>>
        ensures constructed { IsSome result ↔ (is_constructed self.now.tag ≡ true) }
        ensures place { IfSome result (λ c. remaining c ≡ body_place (seen_tlv self.now)) }
        ensures body { IfSome result (λ c. (remaining c).octets ≡ self.now.body.now) }
        ensures shorter { IfSome result (λ c. octets_left c < length self.now.whole.now) }
        ensures bounded { IfSome result (λ c. octets_left c < contents_limit) }
        ensures left { IfSome result (λ c. left c ≡ members (seen_tlv self.now)) }
        ensures shows { ShowsContents self.now result }
    {
        if is_constructed_form(self.tag) {
            Some(Cursor {
                octets: self.body,
                at: self.body_at(),
            })
        } else {
            None
        }
    }
}

impl<'a> Cursor<'a> {
    /// The offset of the next value in the text handed to `whole`, or of the end of the enclosing value if none is left.
    pub fn at(&self) -> usize
        ensures next { result ≡ next_at (left self.now) }
        ensures place { result ≡ (remaining self.now).at }
    {
        self.at
    }

    /// The octets of the values that are left.
    pub fn octets(&self) -> &'a [u8]
        ensures { result.now ≡ (remaining self.now).octets }
    {
        self.octets
    }

    /// Whether no value is left.
    #[tactic(auto, unfolding(crate::specs::Place::ends))]
    pub fn end(&self) -> bool
        ensures none { result ≡ none_left (left self.now) }
        ensures ends { result ≡ ends (remaining self.now) }
    {
        self.octets.is_empty()
    }

    /// Takes the next value; `None` if none is left, and the cursor stays.
    pub fn next(&mut self) -> Option<Tlv<'a>>
        ensures step { TakesFirst self.old result self.new }
        ensures none { IfNone result (self.new ≡ self.old) }
        ensures splits { IfSome result (SplitsOff self.old self.new) }
        ensures shows { ShowsFirst self.old result self.new }
    {
        if self.end() {
            return None;
        }
        let (tlv, rest) = front_of(self.octets, self.at);
        *self = Cursor {
            octets: rest,
            at: self.at + tlv.whole.len(),
        };
        Some(tlv)
    }
}
