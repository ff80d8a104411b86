//! OBJECT IDENTIFIERs.

ghost use Rattle.std.specs.Prelude.{◌≡◌, ◌↔◌, IsTrue};
ghost use Rattle.asn.specs.Oid.{oid_contents};

/// An OBJECT IDENTIFIER by its contents octets (X.690, 8.19). DER has one spelling for each, so two are equal exactly if these are. The
/// order is that of the octets.
#[derive(Clone, Copy, Debug, PartialEq, Eq, PartialOrd, Ord, Hash)]
pub struct Oid<'a> {
    contents: &'a [u8],
}

impl<'a> Oid<'a> {
    /// The OBJECT IDENTIFIER with contents octets that meet X.690, 8.19, which is not checked here.
    pub fn new(contents: &'a [u8]) -> Oid<'a>
        ensures { oid_contents result ≡ contents.now }
    {
        Oid { contents }
    }

    pub fn contents(self) -> &'a [u8]
        ensures { result.now ≡ oid_contents self.entry }
    {
        self.contents
    }

    /// Whether these are its contents octets.
    pub fn is(self, contents: &[u8]) -> bool
        ensures { IsTrue result ↔ (oid_contents self.entry ≡ contents.now) }
    {
        self.contents == contents
    }
}
