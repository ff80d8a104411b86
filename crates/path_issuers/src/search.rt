//! What is searched.

use cert::Certificate;
use path::Options;

/// Certificates that come in any order, and what is asked about one of them.
#[derive(Clone, Copy)]
pub struct Search<'p, 'c> {
    /// Of an anchor the name and the key alone are used.
    pub anchors: &'p [Certificate<'c>],
    /// Those that may stand between an anchor and the target.
    pub bag: &'p [Certificate<'c>],
    pub target: &'p Certificate<'c>,
    /// In seconds from 1970-01-01T00:00:00Z.
    pub moment: i64,
    /// The contents of an OBJECT IDENTIFIER.
    pub purpose: Option<&'p [u8]>,
    /// What is asked for besides.
    pub options: Options,
}
