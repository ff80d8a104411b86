//! General names (RFC 5280, 4.2.1.6).

ghost use Rattle.std.specs.Prelude.{◌≡◌};
ghost use Rattle.names.specs.GeneralName.{form_of_name};

use names_distinguished::Name;

/// A form of general names.
#[derive(Clone, Copy, PartialEq, Eq, Debug)]
pub enum Form {
    /// directoryName.
    Directory,
    /// dNSName.
    Dns,
    /// iPAddress.
    Ip,
    /// Another, by the number of its tag.
    Other(u8),
}

/// A general name that was read.
#[derive(Clone, Copy)]
pub enum General<'a> {
    /// directoryName.
    Directory(Name<'a>),
    /// dNSName.
    Dns(&'a [u8]),
    /// iPAddress, of 4 or 16 octets.
    Ip(&'a [u8]),
    /// A name of another form: the number of its tag, and its contents.
    Other(u8, &'a [u8]),
}

impl General<'_> {
    /// The form of the name.
    pub fn form(&self) -> Form
        ensures { result ≡ form_of_name self.now }
    {
        match self {
            General::Directory(_) => Form::Directory,
            General::Dns(_) => Form::Dns,
            General::Ip(_) => Form::Ip,
            General::Other(number, _) => Form::Other(*number),
        }
    }
}
