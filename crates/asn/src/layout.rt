//! How the members that a cursor hands out are tied to the value that the octets are the encoding of, and the octets of a value.

ghost use Rattle.asn.specs.Layout.{PlacesHoldValues, MembersAreParts, ContentsArePart};
ghost use Rattle.asn.specs.Size.{EncodingHasSize, EncodingsHaveSize, EncodingIsOctets};

/// A place that holds the encoding of a value shows its identifier, its form, and its contents or its members: one for each
/// value inside, in order, at offsets that follow one another. Members and contents are parts of the source.
pub fn member_laws()
    ensures hold { PlacesHoldValues }
    ensures members { MembersAreParts }
    ensures contents { ContentsArePart }
{}

/// An encoding has as many octets as its value asks for, and is the only one. So, in the crate `der_tree`, `parse_tree` of what `encode`
/// answers is the value encoded, and `encode` of what `parse_tree` answers are the octets parsed.
pub fn size_laws()
    ensures value { EncodingHasSize }
    ensures values { EncodingsHaveSize }
    ensures octets { EncodingIsOctets }
{}
