//! Whole texts of DER, and contents that are DER of their own, such as those of many OCTET STRINGs, as steps of a walk.

ghost use Rattle.std.specs.Prelude.{◌≤◌, length, IfErr, OnOk};
ghost use Rattle.asn.specs.Part.{IsWhole};
ghost use Rattle.asn.specs.Place.{seen_tlv};
ghost use Rattle.asn.specs.Walk.{Gives};
ghost use Rattle.asn.specs.Outermost.{first_fault_in, nested, outermost};

use crate::cursor::whole_at;
use crate::tlv::Tlv;
use der::{Fault, Rule, check};

/// What `check` answers, as the rule and the place.
fn first_fault(octets: &[u8]) -> Result<(), (Rule, usize)>
    ensures fault { Gives (λ _. tt) result (first_fault_in octets.now) }
    ensures whole { OnOk result (IsWhole octets.now) }
    ensures within { IfErr result (λ fault. fault.1 ≤ length octets.now) }
{
    match check(octets) {
        Ok(()) => Ok(()),
        Err(Fault::Refused(rule, at)) => Err((rule, at)),
        Err(Fault::Memory) => unreachable!(),
    }
}

impl<'a> Tlv<'a> {
    /// The one value that the octets encode, or the first fault in them, as a step of a walk: the rule and its place. See `whole`.
    #[tactic(auto, unfolding(crate::specs::Outermost::outermost))]
    pub fn outermost(octets: &'a [u8]) -> Result<Tlv<'a>, (Rule, usize)>
        ensures { Gives seen_tlv result (outermost octets.now) }
    {
        first_fault(octets)?;
        Ok(whole_at(octets, 0))
    }

    /// The one value that the contents encode, or the first fault in them, with its offset in the text handed to `whole`. Depth is counted
    /// anew, from 1. Time is linear in the contents; no memory is taken.
    #[tactic(auto, unfolding(crate::specs::Outermost::nested))]
    pub fn nested(&self) -> Result<Tlv<'a>, (Rule, usize)>
        ensures { Gives seen_tlv result (nested (seen_tlv self.now)) }
    {
        let base = self.body_at();
        match first_fault(self.body) {
            Ok(()) => Ok(whole_at(self.body, base)),
            Err((rule, at)) => Err((rule, base + at)),
        }
    }
}
