//! Public keys of subjects (RFC 5280, 4.1.2.7).

ghost use Rattle.std.specs.Prelude.{◌≡◌};
ghost use Rattle.asn.specs.Reading.{seen_tlv, Gives};
ghost use Rattle.cert.specs.SubjectPublicKeyInfo.{key_info, seen_key_info};

use crate::algorithm::AlgorithmIdentifier;
use crate::bit_string::BitString;
use crate::fault::{CertRefusal, CertRule};
use asn::{BIT_STRING, SEQUENCE, Tlv};

/// SubjectPublicKeyInfo ::= SEQUENCE { algorithm AlgorithmIdentifier, subjectPublicKey BIT STRING }
#[derive(Clone, Copy)]
pub struct SubjectPublicKeyInfo<'a> {
    /// The whole value.
    pub value: Tlv<'a>,
    /// The algorithm of the key.
    pub algorithm: AlgorithmIdentifier<'a>,
    /// subjectPublicKey.
    pub key: BitString<'a>,
}

impl<'a> SubjectPublicKeyInfo<'a> {
    /// Reads a public key (RFC 5280, 4.1.2.7); else the fault `Layout`, at a value with a wrong identifier or left over, or at the end of
    /// the value if one is missing. How many bits are unused is not looked at.
    #[tactic(auto, unfolding(crate::specs::SubjectPublicKeyInfo::key_info))]
    pub fn read(value: Tlv<'a>) -> Result<SubjectPublicKeyInfo<'a>, CertRefusal>
        ensures { Gives seen_key_info result (key_info (seen_tlv value.entry)) }
    {
        value.is_a(SEQUENCE, CertRule::Layout)?;
        let mut members = value.members();
        let algorithm = members.next_or(CertRule::Layout)?;
        let algorithm = AlgorithmIdentifier::read(algorithm, CertRule::Layout)?;
        let key = members.required(BIT_STRING, CertRule::Layout)?;
        members.ended(CertRule::Layout)?;
        Ok(SubjectPublicKeyInfo {
            value,
            algorithm,
            key: BitString { value: key },
        })
    }
}
