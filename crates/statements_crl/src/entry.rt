//! Entries of a list (RFC 5280, 5.1.2.6).

ghost use Rattle.asn.specs.Reading.{seen_tlv, Gives};
ghost use Rattle.statements_crl.specs.Entry.{entry, entry_again, entry_fields, listed_again, seen_entry, seen_entry_and_rest};
ghost use Rattle.statements_facts.specs.Listed.{seen_listed};
ghost use Rattle.statements_parts.specs.Fault.{StatementGivesUnlessFull};

use crate::entry_extension::{reason_in_list, take_reason};
use asn::{Cursor, SEQUENCE, Tlv};
use statements_facts::Listed;
use statements_parts::{ReadingFault, StatementRefusal, StatementRule, take_serial};
use std::alloc::Global;

/// SEQUENCE { userCertificate CertificateSerialNumber, revocationDate Time, crlEntryExtensions Extensions OPTIONAL }
#[derive(Clone, Copy, Debug, PartialEq, Eq)]
pub struct Entry<'a> {
    /// The contents of userCertificate: 1 to 32 octets, of any sign.
    pub serial: &'a [u8],
    /// In seconds from 1970-01-01T00:00:00Z.
    pub revocation_date: i64,
    /// The number of the reason (5.3.1): 0 to 6, 9 or 10; 0 (unspecified) if none is given.
    pub reason: u8,
}

impl<'a> Entry<'a> {
    /// The components up to revocationDate, with no reason yet, and what stands behind them.
    #[tactic(auto, unfolding(crate::specs::EntryWalk::entry_fields))]
    fn fields(value: Tlv<'a>) -> Result<(Entry<'a>, Cursor<'a>), StatementRefusal>
        ensures { Gives seen_entry_and_rest result (entry_fields (seen_tlv value.entry)) }
    {
        value.is_a(SEQUENCE, StatementRule::Layout)?;
        let mut members = value.members();
        let serial = take_serial(&mut members)?;
        let revocation_date = members.time(StatementRule::Layout, StatementRule::Layout)?;
        let read = Entry {
            serial,
            revocation_date,
            reason: 0,
        };
        Ok((read, members))
    }

    /// The entry that the value is, or the first fault.
    #[tactic(auto, unfolding(crate::specs::EntryWalk::entry))]
    pub(crate) fn read(alloc: Global, value: Tlv<'a>) -> Result<Entry<'a>, ReadingFault>
        ensures { StatementGivesUnlessFull seen_entry result (entry (seen_tlv value.entry)) }
    {
        let (read, behind) = Entry::fields(value)?;
        let mut members = behind;
        let reason = take_reason(alloc, &mut members)?;
        members.ended(StatementRule::Layout)?;
        Ok(Entry { reason, ..read })
    }

    /// The same of an entry that was read once, without memory.
    #[tactic(auto, unfolding(crate::specs::Entry::entry_again))]
    pub(crate) fn again(value: Tlv<'a>) -> Result<Entry<'a>, StatementRefusal>
        ensures { Gives seen_entry result (entry_again (seen_tlv value.entry)) }
    {
        let (read, behind) = Entry::fields(value)?;
        let mut members = behind;
        let reason = reason_in_list(members.optional(SEQUENCE));
        Ok(Entry { reason, ..read })
    }

    /// The serial number and the reason of an entry that was read once, without memory. The date is passed over.
    #[tactic(auto, unfolding(crate::specs::Entry::listed_again))]
    pub(crate) fn listed(value: Tlv<'a>) -> Result<Listed<'a>, StatementRefusal>
        ensures { Gives seen_listed result (listed_again (seen_tlv value.entry)) }
    {
        value.is_a(SEQUENCE, StatementRule::Layout)?;
        let mut members = value.members();
        let serial = members.next_or(StatementRule::Layout)?;
        members.next_or(StatementRule::Layout)?;
        Ok(Listed {
            serial: serial.body,
            reason: reason_in_list(members.optional(SEQUENCE)),
        })
    }
}
