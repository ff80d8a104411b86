//! What a text of the notation says of a revocation list.

use crate::fault::NotationFault;
use crate::part::NotationPart;
use crate::parts::integer_contents;
use std::alloc::Global;

/// Which certificates of its issuer a list is about, if it isn't about all.
#[derive(Clone, Copy)]
pub(crate) enum ListScope {
    User,
    Ca,
}

/// An entry of a list.
#[derive(Drop)]
pub(crate) struct ListEntry {
    /// The contents of userCertificate.
    pub serial: Vec<u8>,
    /// The number in reasonCode, which stands if there is one.
    pub reason: Option<u32>,
}

impl ListEntry {
    /// A serial number in hexadecimal, and behind a space a reason in decimal, if there is one.
    fn read(alloc: Global, text: NotationPart<'_>) -> Result<ListEntry, NotationFault> {
        match text.split_at_first(' ') {
            None => Ok(ListEntry {
                serial: text.octets(alloc)?,
                reason: None,
            }),
            Some((serial, reason)) => Ok(ListEntry {
                serial: serial.octets(alloc)?,
                reason: Some(reason.number()?),
            }),
        }
    }

    /// The entries, each in brackets, one after the other.
    fn read_all(alloc: Global, text: NotationPart<'_>) -> Result<Vec<ListEntry>, NotationFault> {
        let mut entries = Vec::new(alloc);
        for inside in &text.enclosed(alloc, '[', ']')? {
            entries.push(ListEntry::read(alloc, *inside)?)?;
        }
        Ok(entries)
    }
}

/// What a text asks for.
#[derive(Drop)]
pub(crate) struct ListNotation<'a> {
    pub issuer: &'a str,
    /// The key that signs.
    pub signer: &'a str,
    pub this_update: &'a str,
    pub next_update: &'a str,
    pub entries: Vec<ListEntry>,
    /// The contents of cRLNumber's INTEGER.
    pub number: Vec<u8>,
    pub scope: Option<ListScope>,
}

impl<'a> ListNotation<'a> {
    /// What stands in the parentheses: `ISSUER,NUMBER` or `ISSUER,NUMBER,ENTRIES`.
    fn head(alloc: Global, inside: NotationPart<'a>) -> Result<ListNotation<'a>, NotationFault> {
        let (issuer, behind) = inside.split_at_mark(',')?;
        let (number, entries) = match behind.split_at_first(',') {
            None => (behind, Vec::new(alloc)),
            Some((_, entries)) if entries.text.is_empty() => return Err(entries.fault()),
            Some((number, entries)) => (number, ListEntry::read_all(alloc, entries)?),
        };
        Ok(ListNotation {
            issuer: issuer.word()?,
            signer: issuer.word()?,
            this_update: "250601000000Z",
            next_update: "250701000000Z",
            entries,
            number: integer_contents(alloc, number.number()?)?,
            scope: None,
        })
    }

    /// An option of a word and a value.
    fn note(&mut self, alloc: Global, option: NotationPart<'a>) -> Result<(), NotationFault> {
        let (word, value) = option.split_at_first(' ').ok_or(option.fault())?;
        match word.text {
            "signed" => self.signer = value.word()?,
            "this" => self.this_update = value.time()?,
            "next" => self.next_update = value.time()?,
            "number" => self.number = value.octets(alloc)?,
            "scope" => self.scope = Some(scope_named(value)?),
            _ => return Err(word.fault()),
        }
        Ok(())
    }

    /// What the text says, or the offset at which it is none of the notation.
    pub fn read(alloc: Global, text: &'a str) -> Result<ListNotation<'a>, NotationFault> {
        let whole = NotationPart { text, at: 0 };
        let (kind, behind) = whole.split_at_mark('(')?;
        if kind.text != "crl" {
            return Err(kind.fault());
        }
        let (inside, options) = behind.split_at_mark(')')?;
        let mut notation = ListNotation::head(alloc, inside)?;
        for option in &options.enclosed(alloc, '{', '}')? {
            notation.note(alloc, *option)?;
        }
        Ok(notation)
    }
}

fn scope_named(word: NotationPart<'_>) -> Result<ListScope, NotationFault> {
    match word.text {
        "user" => Ok(ListScope::User),
        "ca" => Ok(ListScope::Ca),
        _ => Err(word.fault()),
    }
}
