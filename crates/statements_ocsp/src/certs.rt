//! The certificates that a response brings with it (RFC 6960, 4.2.1).

ghost use Rattle.std.specs.Prelude.{IfOk, OnErr};
ghost use Rattle.statements_parts.specs.Steps.{HandsOutFirst};
ghost use Rattle.asn.specs.Reading.{seen_tlv};
ghost use Rattle.asn.specs.Walk.{StepGives};
ghost use Rattle.statements_ocsp.specs.Certificates.{HandsOut, PassesTo, StopsAtValue};
ghost use Rattle.statements_ocsp.specs.OcspResponse.{certs, certs_left};

use asn::{Cursor, SEQUENCE, Tlv};
use cert::{CertFault, Certificate};
use statements_parts::{StatementRefusal, StatementRule};
use std::alloc::{AllocError, Global};

/// The values in certs, in order. They are not signed, and need not be certificates.
#[derive(Clone, Copy)]
pub struct Certs<'a> {
    /// `None` if certs is not there.
    members: Option<Cursor<'a>>,
}

impl<'a> Certs<'a> {
    /// Takes the next value; `None` if none is left. No memory is taken.
    pub fn next(&mut self) -> Option<Tlv<'a>>
        ensures { HandsOutFirst seen_tlv (certs_left self.old) (certs_left self.new) result }
    {
        self.members.as_mut()?.next()
    }

    /// Takes the next value that is a certificate, and passes over others; `None` if none is left. If there is no memory to read a value,
    /// a later call begins with it again.
    pub fn next_certificate(&mut self, alloc: Global) -> Result<Option<Certificate<'a>>, AllocError>
        ensures found { IfOk result (HandsOut self.old self.new) }
        ensures passed { IfOk result (PassesTo (certs_left self.old) (certs_left self.new)) }
        ensures kept { OnErr result (StopsAtValue (certs_left self.old) (certs_left self.new)) }
    {
        let mut behind = *self;
        while let Some(value) = behind.next() {
            match Certificate::at(alloc, value) {
                Ok(certificate) => {
                    *self = behind;
                    return Ok(Some(certificate));
                }
                Err(CertFault::Refused(_, _)) => *self = behind,
                Err(CertFault::Memory) => return Err(AllocError),
            }
        }
        Ok(None)
    }

    /// Takes certs [0] EXPLICIT SEQUENCE OF Certificate OPTIONAL.
    #[tactic(auto, unfolding(crate::specs::OcspResponse::certs))]
    pub(crate) fn take(members: &mut Cursor<'a>) -> Result<Certs<'a>, StatementRefusal>
        ensures { StepGives certs_left result members.old members.new certs }
    {
        let Some(explicit) = members.optional(0xA0) else {
            return Ok(Certs { members: None });
        };
        let mut inside = explicit.members();
        let list = inside.required(SEQUENCE, StatementRule::Layout)?;
        inside.ended(StatementRule::Layout)?;
        Ok(Certs {
            members: Some(list.members()),
        })
    }
}
