//! An entry of version 1 whose octets stand elsewhere.

use statements_facts::Listed;

/// An entry, under the id of its issuer.
#[derive(Clone, Copy)]
pub(crate) struct IssuersEntry<'a> {
    pub(crate) issuer: u32,
    pub(crate) listed: Listed<'a>,
}
