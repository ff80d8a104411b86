//! Parts of a text.

use asn::Tlv;
use names::Name;

/// Octets of the text that was handed in.
#[derive(Clone, Copy, Debug, PartialEq, Eq, Default)]
#[repr(C)]
pub struct Part {
    pub offset: usize,
    pub length: usize,
}

impl Part {
    ghost use Rattle.std.specs.Prelude.{◌≡◌, ◌<◌, ◌+◌, length};
    ghost use Rattle.asn.specs.Place.{seen_tlv, body_place};
    ghost use Rattle.names.specs.GeneralView.{name_contents};
    ghost use Rattle.relying_questions.specs.Places.{bits_at};
    ghost use Rattle.capi_values.specs.Parts.{IsPartAt, IsContentsOf, IsBitsOf};

    /// The octets that stand at this offset.
    fn at(offset: usize, octets: &[u8]) -> Part
        ensures part { IsPartAt offset octets.now result }
        ensures place { result.offset ≡ offset }
    {
        Part {
            offset,
            length: octets.len(),
        }
    }

    /// The whole value.
    pub fn whole(value: Tlv<'_>) -> Part
        ensures part { IsPartAt value.entry.at value.entry.whole.now result }
        ensures place { result.offset ≡ value.entry.at }
    {
        Part::at(value.at, value.whole)
    }

    /// The whole name.
    pub fn name(name: &Name<'_>) -> Part
        ensures part { IsPartAt (name_contents name.now).at (name_contents name.now).octets result }
        ensures place { result.offset ≡ (name_contents name.now).at }
    {
        Part::at(name.offset(), name.raw())
    }

    /// The contents of the value.
    pub fn contents(value: Tlv<'_>) -> Part
        ensures part { IsContentsOf value.entry result }
        ensures place { result.offset ≡ (body_place (seen_tlv value.entry)).at }
    {
        Part::at(value.body_at(), value.body)
    }

    /// The contents of the BIT STRING, without the count of unused bits.
    pub fn bits(value: Tlv<'_>) -> Part
        ensures part { IsBitsOf value.entry result }
        ensures place { result.offset ≡ bits_at (seen_tlv value.entry) }
    {
        match value.body {
            [] => Part::at(value.body_at(), value.body),
            [_, bits @ ..] => Part::at(value.body_at() + 1, bits),
        }
    }
}
