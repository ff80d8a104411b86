//! What a text of the notation says of a certificate.

use crate::fault::NotationFault;
use crate::part::NotationPart;
use cert::Version;
use std::alloc::Global;

/// A name in an alternative name or a subtree.
#[derive(Drop)]
pub(crate) enum GeneralName<'a> {
    Dns(&'a str),
    Uri(&'a str),
    /// An address, or an address and its mask.
    Ip(Vec<u8>),
    /// The common name of a directory name.
    Directory(&'a str),
}

impl<'a> GeneralName<'a> {
    fn read(
        alloc: Global,
        form: NotationPart<'a>,
        value: NotationPart<'a>,
    ) -> Result<GeneralName<'a>, NotationFault> {
        match form.text {
            "dns" => Ok(GeneralName::Dns(value.word()?)),
            "uri" => Ok(GeneralName::Uri(value.word()?)),
            "ip" => Ok(GeneralName::Ip(value.octets(alloc)?)),
            "dir" => Ok(GeneralName::Directory(value.word()?)),
            _ => Err(form.fault()),
        }
    }

    /// A form and a value with a space between them.
    fn subtree(alloc: Global, text: NotationPart<'a>) -> Result<GeneralName<'a>, NotationFault> {
        let (form, value) = text.split_at_mark(' ')?;
        GeneralName::read(alloc, form, value)
    }
}

/// What a text asks for.
#[derive(Drop)]
pub(crate) struct Notation<'a> {
    pub version: Version,
    /// The contents of serialNumber.
    pub serial: Vec<u8>,
    pub issuer: &'a str,
    pub not_before: &'a str,
    pub not_after: &'a str,
    /// No characters stand for the name without an RDN.
    pub subject: &'a str,
    pub key: &'a str,
    /// The key that signs.
    pub signer: &'a str,
    /// The contents of the BIT STRING in keyUsage.
    pub usage: Option<Vec<u8>>,
    pub alternative_names: Vec<GeneralName<'a>>,
    pub ca: bool,
    pub path_length: Option<u32>,
    pub permitted: Vec<GeneralName<'a>>,
    pub excluded: Vec<GeneralName<'a>>,
    /// The contents of the OBJECT IDENTIFIERs in extKeyUsage.
    pub purposes: Vec<Vec<u8>>,
    /// Whether there is a policyConstraints, and whether it is critical.
    pub policy: Option<bool>,
    pub no_check: bool,
    /// The types of critical extensions that are not known.
    pub critical: Vec<Vec<u8>>,
}

impl<'a> Notation<'a> {
    /// What a text without options says.
    fn plain(
        alloc: Global,
        ca: bool,
        subject: &'a str,
        issuer: &'a str,
    ) -> Result<Notation<'a>, NotationFault> {
        Ok(Notation {
            version: Version::V3,
            serial: Vec::from_slice(alloc, b"\x05")?,
            issuer,
            not_before: "250101000000Z",
            not_after: "260101000000Z",
            subject,
            key: subject,
            signer: issuer,
            usage: None,
            alternative_names: Vec::new(alloc),
            ca,
            path_length: None,
            permitted: Vec::new(alloc),
            excluded: Vec::new(alloc),
            purposes: Vec::new(alloc),
            policy: None,
            no_check: false,
            critical: Vec::new(alloc),
        })
    }

    /// What stands before the options: `ca(SUBJECT,ISSUER)` or `ee(SUBJECT,ISSUER)`.
    fn head(
        alloc: Global,
        kind: NotationPart<'a>,
        names: NotationPart<'a>,
    ) -> Result<Notation<'a>, NotationFault> {
        let (subject, issuer) = names.split_at_mark(',')?;
        let ca = match kind.text {
            "ca" => true,
            "ee" => false,
            _ => return Err(kind.fault()),
        };
        Notation::plain(alloc, ca, subject.word()?, issuer.word()?)
    }

    /// An option of one word.
    fn note_word(&mut self, word: NotationPart<'a>) -> Result<(), NotationFault> {
        match word.text {
            "empty" => self.subject = "",
            "policy" => self.policy = Some(true),
            "policy-not-critical" => self.policy = Some(false),
            "nocheck" => self.no_check = true,
            _ => return Err(word.fault()),
        }
        Ok(())
    }

    /// An option of a word and a value for a field that every certificate has.
    fn note_field(
        &mut self,
        alloc: Global,
        word: NotationPart<'a>,
        value: NotationPart<'a>,
    ) -> Result<(), NotationFault> {
        match word.text {
            "version" => self.version = value.version()?,
            "serial" => self.serial = value.octets(alloc)?,
            "from" => self.not_before = value.time()?,
            "until" => self.not_after = value.time()?,
            "key" => self.key = value.word()?,
            "signed" => self.signer = value.word()?,
            _ => return self.note_extension(alloc, word, value),
        }
        Ok(())
    }

    /// An option of a word and a value for an extension.
    fn note_extension(
        &mut self,
        alloc: Global,
        word: NotationPart<'a>,
        value: NotationPart<'a>,
    ) -> Result<(), NotationFault> {
        match word.text {
            "usage" => self.usage = Some(value.octets(alloc)?),
            "pathlen" => self.path_length = Some(value.number()?),
            "permit" => self.permitted.push(GeneralName::subtree(alloc, value)?)?,
            "exclude" => self.excluded.push(GeneralName::subtree(alloc, value)?)?,
            "purpose" => self.purposes.push(value.object_identifier(alloc)?)?,
            "critical" => self.critical.push(value.object_identifier(alloc)?)?,
            _ => {
                let name = GeneralName::read(alloc, word, value)?;
                self.alternative_names.push(name)?;
            }
        }
        Ok(())
    }

    fn note(&mut self, alloc: Global, option: NotationPart<'a>) -> Result<(), NotationFault> {
        match option.split_at_first(' ') {
            None => self.note_word(option),
            Some((word, value)) => self.note_field(alloc, word, value),
        }
    }

    /// What the text says, or the offset at which it is none of the notation.
    pub fn read(alloc: Global, text: &'a str) -> Result<Notation<'a>, NotationFault> {
        let whole = NotationPart { text, at: 0 };
        let (kind, behind) = whole.split_at_mark('(')?;
        let (names, options) = behind.split_at_mark(')')?;
        let mut notation = Notation::head(alloc, kind, names)?;
        for option in &options.enclosed(alloc, '{', '}')? {
            notation.note(alloc, *option)?;
        }
        Ok(notation)
    }
}
