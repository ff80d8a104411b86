//! An entry beside the first octets of its serial number.

ghost use Rattle.std.specs.Prelude.{◌≡◌};
ghost use Rattle.statements_facts.specs.Prefix.{prefix_value};

use crate::revoked::Listed;

/// An entry beside the first octets of its serial number, as a number.
#[derive(Clone, Copy)]
pub(crate) struct Prefixed<'a> {
    pub(crate) prefix: u64,
    pub(crate) listed: Listed<'a>,
    ghost is_prefix: { prefix ≡ prefix_value 8 listed.serial.now },
}
