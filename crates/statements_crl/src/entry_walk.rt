//! The entries of a list that have not been handed out yet.

ghost use Rattle.std.specs.Prelude.{◌≡◌, IfSome, Ok};
ghost use Rattle.asn.specs.Members.{left};
ghost use Rattle.std.proofs.Props.{props};
ghost use Rattle.statements_crl.specs.EntryWalk.{entries_checked, entries};

use asn::Cursor;

/// The entries of a list that was read, in order. Each is read again from its octets, without memory.
#[derive(Clone, Copy)]
pub struct Entries<'a> {
    /// `None` if revokedCertificates is not there.
    pub(crate) members: Option<Cursor<'a>>,
    // Each value that is left is an entry, so that parts of it can be handed out without a look at the others.
    pub ghost were_read: { IfSome members (λ cursor. entries_checked (entries (left cursor).values) ≡ Ok tt) } by { Prim.hlevel props },
}
