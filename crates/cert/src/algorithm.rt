//! Algorithm identifiers (RFC 5280, 4.1.1.2).

ghost use Rattle.asn.specs.Reading.{seen_tlv, Gives};
ghost use Rattle.cert.specs.AlgorithmIdentifier.{algorithm_identifier, seen_algorithm};

use asn::{OBJECT_IDENTIFIER, Oid, SEQUENCE, Tlv};

/// AlgorithmIdentifier ::= SEQUENCE { algorithm OBJECT IDENTIFIER, parameters ANY DEFINED BY algorithm OPTIONAL }
#[derive(Clone, Copy)]
pub struct AlgorithmIdentifier<'a> {
    /// The whole value, with its parameters.
    pub value: Tlv<'a>,
    pub oid: Oid<'a>,
}

impl<'a> AlgorithmIdentifier<'a> {
    /// Reads an algorithm identifier (RFC 5280, 4.1.1.2); else the fault `layout`, at a value with a wrong identifier or left over, or at
    /// the end of this one if the OBJECT IDENTIFIER is missing. The parameters are not looked at.
    #[tactic(auto, unfolding(crate::specs::AlgorithmIdentifier::algorithm_identifier))]
    pub fn read<F: Copy>(value: Tlv<'a>, layout: F) -> Result<AlgorithmIdentifier<'a>, (F, usize)>
        ensures { Gives seen_algorithm result (algorithm_identifier layout (seen_tlv value.entry)) }
    {
        value.is_a(SEQUENCE, layout)?;
        let mut members = value.members();
        let algorithm = members.required(OBJECT_IDENTIFIER, layout)?;
        members.any();
        members.ended(layout)?;
        Ok(AlgorithmIdentifier {
            value,
            oid: Oid::new(algorithm.body),
        })
    }
}
