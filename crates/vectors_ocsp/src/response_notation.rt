//! What a text of the notation says of an OCSP response.

use crate::options::{option_in, word_and_value};
use std::alloc::Global;
use vectors::{NotationFault, NotationPart};

/// Whether a certificate is revoked.
#[derive(Clone, Copy)]
pub(crate) enum Status {
    Good,
    /// With the reason's number if one is given.
    Revoked(Option<u32>),
    Unknown,
}

/// A serial number with its status.
#[derive(Drop)]
pub(crate) struct Single {
    /// Whether the hashes of the id are by SHA-256, and not by SHA-1.
    pub by_sha256: bool,
    /// The contents of serialNumber.
    pub serial: Vec<u8>,
    pub status: Status,
}

impl Single {
    /// `SERIAL good`, `SERIAL revoked`, `SERIAL revoked REASON` or `SERIAL unknown`, behind `#` if the id is by SHA-256
    fn read(alloc: Global, text: NotationPart<'_>) -> Result<Single, NotationFault> {
        let (serial, status) = text.split_at_mark(' ')?;
        let (by_sha256, serial) = match serial.text.strip_prefix('#') {
            Some(digits) => (true, serial.behind(1, digits)),
            None => (false, serial),
        };
        let serial = serial.octets(alloc)?;
        let (word, value) = word_and_value(status);
        let status = match word.text {
            "good" => Status::Good,
            "revoked" if value.text.is_empty() => Status::Revoked(None),
            "revoked" => Status::Revoked(Some(value.number()?)),
            "unknown" => Status::Unknown,
            _ => return Err(word.fault()),
        };
        Ok(Single {
            by_sha256,
            serial,
            status,
        })
    }
}

/// Who says that the response is his.
#[derive(Clone, Copy)]
pub(crate) enum Responder<'a> {
    ByName(&'a str),
    /// By the hash of the key's octets.
    ByKey(&'a str),
}

/// What a text asks for.
#[derive(Drop)]
pub(crate) struct ResponseNotation<'a> {
    /// The issuer of the certificates that it speaks of.
    pub issuer: &'a str,
    /// The name and the key whose hashes the ids have.
    pub named: &'a str,
    pub key: &'a str,
    pub singles: Vec<Single>,
    pub responder: Responder<'a>,
    /// The key that signs.
    pub signer: &'a str,
    pub this_update: &'a str,
    pub produced_at: &'a str,
    pub next_update: Option<&'a str>,
}

/// Fourteen digits and `Z`, of any date or none.
fn time<'a>(part: NotationPart<'a>) -> Result<&'a str, NotationFault> {
    match part.text.strip_suffix('Z') {
        Some(digits) if digits.len() == 14 && digits.bytes().all(|octet| octet.is_ascii_digit()) =>
            { Ok(part.text) }
        _ => Err(part.fault()),
    }
}

/// The single responses, with commas between them.
fn singles(alloc: Global, text: NotationPart<'_>) -> Result<Vec<Single>, NotationFault> {
    let mut singles = Vec::new(alloc);
    for one in text.text.split(',') {
        singles.push(Single::read(alloc, text.behind(0, one))?)?;
    }
    Ok(singles)
}

impl<'a> ResponseNotation<'a> {
    /// What stands before the options: `ocsp(ISSUER,SERIAL STATUS,..)`.
    fn head(
        alloc: Global,
        kind: NotationPart<'a>,
        inside: NotationPart<'a>,
    ) -> Result<ResponseNotation<'a>, NotationFault> {
        if kind.text != "ocsp" {
            return Err(kind.fault());
        }
        let (issuer, listed) = inside.split_at_mark(',')?;
        let issuer = issuer.word()?;
        Ok(ResponseNotation {
            issuer,
            named: issuer,
            key: issuer,
            singles: singles(alloc, listed)?,
            responder: Responder::ByName(issuer),
            signer: issuer,
            this_update: "20250601000000Z",
            produced_at: "20250601000000Z",
            next_update: Some("20250701000000Z"),
        })
    }

    fn note(&mut self, option: NotationPart<'a>) -> Result<(), NotationFault> {
        let (word, value) = word_and_value(option);
        match word.text {
            "named" => self.named = value.word()?,
            "key" => self.key = value.word()?,
            "signed" => self.signer = value.word()?,
            "by" => self.responder = Responder::ByName(value.word()?),
            "bykey" => self.responder = Responder::ByKey(value.word()?),
            "from" => {
                self.this_update = time(value)?;
                self.produced_at = self.this_update;
            }
            "produced" => self.produced_at = time(value)?,
            "until" => self.next_update = Some(time(value)?),
            "open" if value.text.is_empty() => self.next_update = None,
            _ => return Err(word.fault()),
        }
        Ok(())
    }

    /// What the text says, or the offset at which it is none of the notation.
    pub fn read(alloc: Global, text: &'a str) -> Result<ResponseNotation<'a>, NotationFault> {
        let whole = NotationPart { text, at: 0 };
        let (kind, behind) = whole.split_at_mark('(')?;
        let (inside, options) = behind.split_at_mark(')')?;
        let mut notation = ResponseNotation::head(alloc, kind, inside)?;
        let mut next = options;
        for braced in options.text.split_inclusive('}') {
            notation.note(option_in(next, braced)?)?;
            next = next.behind(braced.len(), "");
        }
        Ok(notation)
    }
}
