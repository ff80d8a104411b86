//! The entries of a list, one after the other (RFC 5280, 5.1.2.6).

ghost use Rattle.asn.specs.Reading.{left};
ghost use Rattle.statements_crl.specs.CertificateList.{revoked};
ghost use Rattle.statements_crl.specs.Entry.{entries_checked, entries, entries_left, seen_entry, serials_left};
ghost use Rattle.statements_facts.specs.Listed.{seen_listed};
ghost use Rattle.statements_parts.specs.Fault.{StatementGivesUnlessFull};
ghost use Rattle.statements_parts.specs.Steps.{HandsOutFirst, StepGivesUnlessFull};

use crate::entry::Entry;
use crate::entry_walk::Entries;
use asn::{Cursor, SEQUENCE};
use statements_facts::Listed;
use statements_parts::ReadingFault;
use std::alloc::Global;

impl<'a> Entries<'a> {
    /// Takes the next entry; `None` if none is left. The date is read again.
    #[tactic(auto, using(crate::proofs::EntryAgain::others_read))]
    pub fn next(&mut self) -> Option<Entry<'a>>
        ensures { HandsOutFirst seen_entry (entries_left self.old) (entries_left self.new) result }
    {
        let mut behind = self.members?;
        let value = behind.next()?;
        let entry = Entry::again(value).ok()?;
        *self = Entries {
            members: Some(behind),
        };
        Some(entry)
    }

    /// Takes the next entry, and gives its serial number and its reason; `None` if none is left. This costs less than `next`, since the
    /// date is passed over.
    #[tactic(auto, using(crate::proofs::EntryAgain::others_read, crate::proofs::ListedAgain::first_listed, crate::proofs::ListedAgain::none_refused))]
    pub fn next_listed(&mut self) -> Option<Listed<'a>>
        ensures { HandsOutFirst seen_listed (serials_left self.old) (serials_left self.new) result }
    {
        let mut behind = self.members?;
        let first = behind.next()?;
        let Ok(listed) = Entry::listed(first) else {
            return None;
        };
        *self = Entries {
            members: Some(behind),
        };
        Some(listed)
    }
}

/// The first fault of the entries that the values are.
fn check_entries(alloc: Global, members: Cursor<'_>) -> Result<(), ReadingFault>
    ensures { StatementGivesUnlessFull (λ _. tt) result
        (entries_checked (entries (left members.entry).values)) }
{
    let mut members = members;
    while let Some(value) = members.next() {
        Entry::read(alloc, value)?;
    }
    Ok(())
}

/// Takes revokedCertificates SEQUENCE OF .. OPTIONAL.
#[tactic(auto, unfolding(crate::specs::CertificateList::revoked), using(crate::proofs::EntryAgain::checked_entries))]
pub(crate) fn take_entries<'a>(
    alloc: Global,
    members: &mut Cursor<'a>,
) -> Result<Entries<'a>, ReadingFault>
    ensures { StepGivesUnlessFull entries_left result members.old members.new revoked }
{
    let Some(list) = members.optional(SEQUENCE) else {
        return Ok(Entries { members: None });
    };
    let entries = list.members();
    check_entries(alloc, entries)?;
    Ok(Entries {
        members: Some(entries),
    })
}
