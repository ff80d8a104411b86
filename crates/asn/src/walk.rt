//! Reading the values of a layout from left to right.

ghost use Rattle.std.specs.Prelude.{◌≡◌, ◌<◌, true, IfOk, IfSome, OnErr};
ghost use Rattle.der.specs.Identifier.{is_constructed};
ghost use Rattle.der.specs.Length.{contents_limit};
ghost use Rattle.asn.specs.Place.{seen_tlv, octets_left};
ghost use Rattle.asn.specs.Members.{left, members, begins};
ghost use Rattle.asn.specs.Time.{IsBeforeYear10000};
ghost use Rattle.asn.specs.Walk.{Gives, StepGives, seen, is_a, required, choice, optional, any, next_or, ended, some, seconds, time, default_false};

use crate::identifier::{BOOLEAN, GENERALIZED_TIME, UTC_TIME};
use crate::time::seconds_of_time;
use crate::tlv::{Cursor, Tlv};

// A step that looks at the next value stands behind it, if there is one, whether it takes the value or refuses it.
impl<'a> Cursor<'a> {
    /// Whether the next value is there and has this identifier octet.
    pub fn begins(&self, tag: u8) -> bool
        ensures { result ≡ begins tag (left self.now) }
    {
        match self.octets {
            [] => false,
            [octet, ..] => *octet == tag,
        }
    }

    /// Takes the next value, which must have this identifier octet; else the fault, at the next value, or at the end of the enclosing
    /// value if none is left.
    #[tactic(auto, unfolding(crate::specs::Walk::required, crate::specs::Members::next_at, crate::specs::Walk::any))]
    pub fn required<F: Copy>(&mut self, tag: u8, fault: F) -> Result<Tlv<'a>, (F, usize)>
        ensures walk { StepGives seen_tlv result self.old self.new (required tag fault) }
        ensures tag { IfOk result (λ tlv. tlv.tag ≡ tag) }
        ensures passed { left self.new ≡ (any (left self.old)).1 }
    {
        let at = self.at();
        match self.next() {
            Some(tlv) if tlv.tag == tag => Ok(tlv),
            _ => Err((fault, at)),
        }
    }

    /// Takes the next value, which must have one of these identifier octets; else the fault, at the next value, or at the end of the
    /// enclosing value if none is left.
    #[tactic(auto, unfolding(crate::specs::Walk::choice, crate::specs::Walk::check_that))]
    pub fn choice<F: Copy>(&mut self, tags: &[u8], fault: F) -> Result<Tlv<'a>, (F, usize)>
        ensures walk { StepGives seen_tlv result self.old self.new (choice tags.now fault) }
        ensures passed { left self.new ≡ (any (left self.old)).1 }
    {
        let value = self.next_or(fault)?;
        if tags.contains(&value.tag) {
            Ok(value)
        } else {
            Err((fault, value.at))
        }
    }

    /// Takes the next value, which must be a UTCTime or a GeneralizedTime, and gives its seconds (as `seconds_of_time`): the fault
    /// `layout`, as of `choice`, if it is neither; else `fault`, at the value, if that time does not exist.
    #[tactic(auto, unfolding(crate::specs::Walk::time))]
    pub fn time<F: Copy>(&mut self, layout: F, fault: F) -> Result<i64, (F, usize)>
        ensures walk { StepGives (λ moment. moment) result self.old self.new (time layout fault) }
        ensures passed { left self.new ≡ (any (left self.old)).1 }
    {
        let value = self.choice(&[UTC_TIME, GENERALIZED_TIME], layout)?;
        value.seconds(fault)
    }

    /// Takes the next value if it has this identifier octet; else the cursor stays as it was.
    #[tactic(auto, unfolding(crate::specs::Walk::optional, crate::specs::Members::begins))]
    pub fn optional(&mut self, tag: u8) -> Option<Tlv<'a>>
        ensures walk { optional tag (left self.old) ≡ (seen seen_tlv result, left self.new) }
        ensures tag { IfSome result (λ tlv. tlv.tag ≡ tag) }
    {
        if self.begins(tag) { self.next() } else { None }
    }

    /// Takes a BOOLEAN DEFAULT FALSE, which is TRUE if it is there (X.690, 11.5); else the fault, at the BOOLEAN.
    #[tactic(auto, unfolding(crate::specs::Walk::default_false, crate::specs::Walk::any, crate::specs::Walk::optional))]
    pub fn default_false<F: Copy>(&mut self, fault: F) -> Result<bool, (F, usize)>
        ensures walk { StepGives (λ flag. flag) result self.old self.new (default_false fault) }
        ensures passed { OnErr result (left self.new ≡ (any (left self.old)).1) }
    {
        match self.optional(BOOLEAN) {
            None => Ok(false),
            Some(flag) => match flag.body {
                [0xFF] => Ok(true),
                _ => Err((fault, flag.at)),
            },
        }
    }

    /// Takes the next value, of any kind, if there is one.
    #[tactic(auto, unfolding(crate::specs::Walk::any))]
    pub fn any(&mut self) -> Option<Tlv<'a>>
        ensures { any (left self.old) ≡ (seen seen_tlv result, left self.new) }
    {
        self.next()
    }

    /// Takes the next value, of any kind; the fault, at the end of the enclosing value, if none is left.
    #[tactic(auto, unfolding(crate::specs::Walk::next_or, crate::specs::Members::next_at, crate::specs::Walk::any))]
    pub fn next_or<F: Copy>(&mut self, fault: F) -> Result<Tlv<'a>, (F, usize)>
        ensures walk { StepGives seen_tlv result self.old self.new (next_or fault) }
        ensures passed { left self.new ≡ (any (left self.old)).1 }
    {
        let at = self.at();
        match self.next() {
            Some(tlv) => Ok(tlv),
            None => Err((fault, at)),
        }
    }

    /// The fault, at the end of the enclosing value, if no value is left.
    #[tactic(auto, unfolding(crate::specs::Walk::some))]
    pub fn some<F: Copy>(&self, fault: F) -> Result<(), (F, usize)>
        ensures { Gives (λ _. tt) result (some fault (left self.now)) }
    {
        if self.end() {
            return Err((fault, self.at()));
        }
        Ok(())
    }

    /// The fault, at the next value, if one is left.
    #[tactic(auto, unfolding(crate::specs::Walk::ended))]
    pub fn ended<F: Copy>(&self, fault: F) -> Result<(), (F, usize)>
        ensures { Gives (λ _. tt) result (ended fault (left self.now)) }
    {
        if self.end() {
            Ok(())
        } else {
            Err((fault, self.at()))
        }
    }
}

impl<'a> Tlv<'a> {
    /// The fault, at this value, if it has another identifier octet.
    #[tactic(auto, unfolding(crate::specs::Walk::is_a))]
    pub fn is_a<F: Copy>(&self, tag: u8, fault: F) -> Result<(), (F, usize)>
        ensures walk { Gives (λ _. tt) result (is_a tag fault (seen_tlv self.now)) }
        ensures tag { IfOk result (λ _. self.now.tag ≡ tag) }
    {
        if self.tag == tag {
            Ok(())
        } else {
            Err((fault, self.at))
        }
    }

    /// The seconds of this time (as `seconds_of_time`). If the value is not a time, returns the fault at this value.
    #[tactic(auto, unfolding(crate::specs::Walk::seconds))]
    pub fn seconds<F: Copy>(&self, fault: F) -> Result<i64, (F, usize)>
        ensures walk { Gives (λ moment. moment) result (seconds fault (seen_tlv self.now)) }
        ensures early { IfOk result IsBeforeYear10000 }
    {
        match seconds_of_time(self.tag, self.body) {
            Some(moment) => Ok(moment),
            None => Err((fault, self.at)),
        }
    }

    /// The values inside a value whose identifier octet has the constructed flag, in order.
    pub fn members(&self) -> Cursor<'a>
        requires { is_constructed self.now.tag ≡ true }
        ensures left { left result ≡ members (seen_tlv self.now) }
        ensures bounded { octets_left result < contents_limit }
    {
        match self.inside() {
            Some(members) => members,
            None => unreachable!(),
        }
    }
}
