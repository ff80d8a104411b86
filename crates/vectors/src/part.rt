//! Parts of a text, and the values that they spell.

use crate::fault::NotationFault;
use cert::Version;
use hex::FromHexError;
use std::alloc::Global;

/// A part of a text, and the offset at which it stands there.
#[derive(Clone, Copy)]
pub struct NotationPart<'a> {
    pub text: &'a str,
    pub at: usize,
}

impl<'a> NotationPart<'a> {
    pub fn fault(self) -> NotationFault {
        NotationFault::Text(self.at)
    }

    /// What stands so many octets behind the beginning.
    pub fn behind(self, octets: usize, text: &'a str) -> NotationPart<'a> {
        // An offset in a text is never so great that it saturates.
        NotationPart {
            text,
            at: self.at.saturating_add(octets),
        }
    }

    /// What stands before the first such character, and what stands behind it.
    pub fn split_at_first(self, mark: char) -> Option<(NotationPart<'a>, NotationPart<'a>)> {
        let (before, after) = self.text.split_once(mark)?;
        let skipped = self.text.len().saturating_sub(after.len());
        Some((self.behind(0, before), self.behind(skipped, after)))
    }

    /// The same, if there has to be one.
    pub fn split_at_mark(
        self,
        mark: char,
    ) -> Result<(NotationPart<'a>, NotationPart<'a>), NotationFault> {
        self.split_at_first(mark)
            .ok_or(self.behind(self.text.len(), "").fault())
    }

    /// What stands between each pair of such marks, if the text is nothing but such pairs, one after the other.
    pub fn enclosed(
        self,
        alloc: Global,
        open: char,
        close: char,
    ) -> Result<Vec<NotationPart<'a>>, NotationFault> {
        let mut all = Vec::new(alloc);
        let mut next = self;
        for pair in self.text.split_inclusive(close) {
            let inside = pair
                .strip_prefix(open)
                .and_then(|behind| behind.strip_suffix(close))
                .ok_or(next.fault())?;
            all.push(next.behind(1, inside))?;
            next = next.behind(pair.len(), "");
        }
        Ok(all)
    }

    /// One or more characters of ASCII.
    pub fn word(self) -> Result<&'a str, NotationFault> {
        if self.text.is_empty() || !self.text.is_ascii() {
            return Err(self.fault());
        }
        Ok(self.text)
    }

    /// Octets in hexadecimal.
    pub fn octets(self, alloc: Global) -> Result<Vec<u8>, NotationFault> {
        match hex::decode(alloc, self.text) {
            Ok(octets) => Ok(octets),
            Err(FromHexError::OutOfMemory) => Err(NotationFault::Memory),
            Err(_) => Err(self.fault()),
        }
    }

    fn is_of_digits(self) -> bool {
        self.text.bytes().all(|octet| octet.is_ascii_digit())
    }

    /// A number in decimal.
    pub fn number(self) -> Result<u32, NotationFault> {
        if !self.is_of_digits() {
            return Err(self.fault());
        }
        match self.text.parse::<u32>() {
            Ok(number) => Ok(number),
            Err(_) => Err(self.fault()),
        }
    }

    /// Twelve digits and `Z`, of any date or none.
    pub fn time(self) -> Result<&'a str, NotationFault> {
        match self.text.strip_suffix('Z') {
            Some(digits) if digits.len() == 12 && self.behind(0, digits).is_of_digits() => {
                Ok(self.text)
            }
            _ => Err(self.fault()),
        }
    }

    pub fn version(self) -> Result<Version, NotationFault> {
        match self.text {
            "1" => Ok(Version::V1),
            "2" => Ok(Version::V2),
            "3" => Ok(Version::V3),
            _ => Err(self.fault()),
        }
    }

    /// The numbers with dots between them.
    fn arcs(self, alloc: Global) -> Result<Vec<u32>, NotationFault> {
        let mut arcs = Vec::new(alloc);
        for text in self.text.split('.') {
            let arc = self.behind(0, text).number()?;
            arcs.push(arc)?;
        }
        Ok(arcs)
    }

    /// The contents octets of an OBJECT IDENTIFIER whose arcs are decimal numbers with dots between them (X.690, 8.19).
    pub fn object_identifier(self, alloc: Global) -> Result<Vec<u8>, NotationFault> {
        let arcs = self.arcs(alloc)?;
        match arcs.as_slice() {
            [first, second, others @ ..] => {
                let head = first_number(*first, *second).ok_or(self.fault())?;
                let mut contents = Vec::new(alloc);
                push_arc(&mut contents, head)?;
                for arc in others {
                    push_arc(&mut contents, *arc)?;
                }
                Ok(contents)
            }
            _ => Err(self.fault()),
        }
    }
}

/// The number that stands for the first two arcs (X.690, 8.19.4).
fn first_number(first: u32, second: u32) -> Option<u32> {
    match first {
        0 if second < 40 => Some(second),
        1 if second < 40 => Some(second + 40),
        2 => second.checked_add(80),
        _ => None,
    }
}

/// Adds a number in octets of 7 bits, all but the last one marked, as few as possible.
fn push_arc(contents: &mut Vec<u8>, arc: u32) -> Result<(), NotationFault> {
    for place in (1..5u32).rev() {
        let high = arc >> (7 * place);
        if high != 0 {
            contents.push(128 + (high % 128) as u8)?;
        }
    }
    contents.push((arc % 128) as u8)?;
    Ok(())
}
