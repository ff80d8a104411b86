//! What a list lists.

ghost use Rattle.std.specs.Prelude.{◌≡◌, IfOk, map};
ghost use Rattle.statements_facts.specs.Listed.{seen_listed};
ghost use Rattle.statements_crl.specs.Entry.{serials_left};

use statements_crl::Entries;
use statements_facts::Listed;
use std::alloc::{AllocError, Global};

/// The serial numbers and reasons of the entries, in order.
pub(crate) fn listed_by(alloc: Global, entries: Entries<'_>) -> Result<Vec<Listed<'_>>, AllocError>
    ensures { IfOk result (λ listed. map seen_listed listed.items ≡ serials_left entries.entry) }
{
    let mut entries = entries;
    let mut listed = Vec::new(alloc);
    while let Some(serial) = entries.next_listed() {
        listed.push(serial)?;
    }
    Ok(listed)
}
