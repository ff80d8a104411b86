//! Certificates, and the texts that they stand in.

use crate::part::WhichText;
use cert::Certificate;

/// A certificate whose parts stand in a text.
#[derive(Clone, Copy)]
pub(crate) struct Placed<'p, 'a> {
    pub(crate) certificate: &'p Certificate<'a>,
    pub(crate) source: WhichText,
}
