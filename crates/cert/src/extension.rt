//! Extensions (RFC 5280, 4.2).

ghost use Rattle.asn.specs.Reading.{seen_tlv, Gives};
ghost use Rattle.cert.specs.Extension.{extension, seen_extension};

use asn::{OBJECT_IDENTIFIER, OCTET_STRING, Oid, SEQUENCE, Tlv};

/// Extension ::= SEQUENCE { extnID OBJECT IDENTIFIER, critical BOOLEAN DEFAULT FALSE, extnValue OCTET STRING }
#[derive(Clone, Copy)]
pub struct Extension<'a> {
    /// The whole value.
    pub whole: Tlv<'a>,
    pub oid: Oid<'a>,
    pub critical: bool,
    /// The OCTET STRING, whose contents are the value.
    pub value: Tlv<'a>,
}

impl<'a> Extension<'a> {
    /// Reads an extension (RFC 5280, 4.2); else the fault `layout`, at a value with a wrong identifier or left over, at a BOOLEAN that is
    /// not TRUE, or at the end of this one if a value is missing. The contents of the OCTET STRING are not looked at.
    #[tactic(auto, unfolding(crate::specs::Extension::extension))]
    pub fn read<F: Copy>(value: Tlv<'a>, layout: F) -> Result<Extension<'a>, (F, usize)>
        ensures { Gives seen_extension result (extension layout (seen_tlv value.entry)) }
    {
        value.is_a(SEQUENCE, layout)?;
        let mut members = value.members();
        let oid = members.required(OBJECT_IDENTIFIER, layout)?;
        let critical = members.default_false(layout)?;
        let octet_string = members.required(OCTET_STRING, layout)?;
        members.ended(layout)?;
        Ok(Extension {
            whole: value,
            oid: Oid::new(oid.body),
            critical,
            value: octet_string,
        })
    }
}
