//! A value, and the values inside one, as parts of the octets that they stand in.

ghost use Rattle.std.specs.Prelude.{◌≡◌, ◌+◌, ◌<◌, ◌^◌, length, slice_index};
ghost use Rattle.asn.specs.Part.{IsEncoded, AreEncoded, contents};

/// One value of a text that was handed to `whole`. All parts borrow that text.
#[derive(Clone, Copy)]
pub struct Tlv<'a> {
    /// The identifier octet.
    pub tag: u8,
    /// The contents octets.
    pub body: &'a [u8],
    /// The whole encoding: identifier, length and contents octets.
    pub whole: &'a [u8],
    /// The offset of the identifier octet in the text handed to `whole`.
    pub at: usize,
    pub ghost encoded: { ∥ IsEncoded whole.now ∥₁ },
    pub ghost tag_is: { tag ≡ slice_index whole.now 0 },
    pub ghost body_is: { body.now ≡ contents whole.now },
    pub ghost fits: { at + length whole.now < 2 ^ 64 },
}

/// The values inside a constructed value that have not been taken yet, in order.
#[derive(Clone, Copy)]
pub struct Cursor<'a> {
    pub(crate) octets: &'a [u8],
    pub(crate) at: usize,
    pub ghost encoded: { ∥ AreEncoded octets.now ∥₁ },
    pub ghost fits: { at + length octets.now < 2 ^ 64 },
}
