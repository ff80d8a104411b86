//! Octets with their place.

ghost use Rattle.std.specs.Prelude.{◌≡◌, ◌<◌};
ghost use Rattle.asn.specs.Part.{IsPartOf};
ghost use Rattle.asn.specs.Reading.{seen_tlv};
ghost use Rattle.cert.specs.BitString.{seen_bit_string};
ghost use Rattle.relying_questions.specs.Places.{IsPlaceIn, Stands, Texts, bits_at};

use asn::Tlv;
use cert::BitString;

/// A text that holds a part of a question.
#[derive(Clone, Copy, Debug, PartialEq, Eq)]
pub enum WhichText {
    /// A certificate, by its number. Of a query (`questions`) 0 is the anchor, and the path begins with 1. Of a search
    /// (`finding_questions`) the anchors come first, by their places, then the target, then the certificates of the bag, by theirs.
    Certificate(usize),
    /// A statement, by its index, from 0 on.
    Statement(usize),
}

/// Octets, and where they stand.
#[derive(Clone, Copy, Debug, PartialEq, Eq)]
pub struct TextPart<'a> {
    pub source: WhichText,
    /// The offset in that text.
    pub at: usize,
    pub octets: &'a [u8],
}

/// Where the octets of a BIT STRING begin, behind the count of unused bits.
fn offset_of_bits(value: Tlv<'_>) -> usize
    ensures place { result ≡ bits_at (seen_tlv value.entry) }
    ensures behind { 0 < result }
{
    match value.body {
        [] => value.body_at(),
        [_, ..] => value.body_at() + 1,
    }
}

impl<'a> TextPart<'a> {
    /// A value of the text.
    pub(crate) fn whole(source: WhichText, value: Tlv<'a>) -> TextPart<'a>
        ensures octets { result.octets.now ≡ value.entry.whole.now }
        ensures stands { (texts : Texts) → IsPlaceIn (texts source) (seen_tlv value.entry)
            → Stands texts result }
    {
        TextPart {
            source,
            at: value.at,
            octets: value.whole,
        }
    }

    /// The octets of a BIT STRING of the text.
    pub(crate) fn bits(source: WhichText, bits: BitString<'a>) -> TextPart<'a>
        ensures octets { result.octets.now ≡ (seen_bit_string bits.entry).octets }
        ensures stands { (texts : Texts) → IsPartOf (texts source)
            (bits_at (seen_tlv bits.entry.value)) (seen_bit_string bits.entry).octets
            → Stands texts result }
    {
        TextPart {
            source,
            at: offset_of_bits(bits.value),
            octets: bits.octets(),
        }
    }
}
