//! Files of certificates, as they were read.
ghost use Rattle.std.specs.Prelude.{◌<◌, ◌^◌, length, map};
ghost use Rattle.der_stream.specs.Sequence.{joined};

use cli_failures::Failure;
use der_stream::ReadFault;
use statements_facts::Profile;

/// A file of certificates.
#[derive(Drop)]
pub(crate) struct PathFile<'a> {
    pub file: &'a str,
    /// In which certificates are read of it.
    pub profile: Profile,
    /// The values that stand in it, in order.
    pub values: Vec<Vec<u8>>,
    /// Why no more were read behind them, if that is not for their number or the end of the file.
    pub stopped: Option<(u64, ReadFault)>,
    pub ghost fits: { length (joined (map (λ value. value.items) values.items)) < 2 ^ 64 },
}

/// Files of certificates, in order.
#[derive(Drop)]
pub(crate) struct PathFiles<'a> {
    pub files: Vec<PathFile<'a>>,
    /// Why the next of them was not read, if one was not.
    pub unread: Option<Failure<'a>>,
}
