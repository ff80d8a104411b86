//! The bases of a certificate's constraints on mail addresses and on the hosts of URIs.

ghost use Rattle.std.specs.Prelude.{◌≡◌, IfOk, IfErr, OnOk, map};
ghost use Rattle.asn.specs.Reading.{seen_tlv};
ghost use Rattle.cert.specs.ExtensionValues.{seen_values};
ghost use Rattle.cert.specs.Fault.{GivesUnlessFull};
ghost use Rattle.names_hosts.specs.Hosts.{host_names};
ghost use Rattle.names_hosts.specs.Mail.{mail_names};
ghost use Rattle.cert_hosts.specs.BaseLists.{no_bases, seen_lists, with_mail_base, with_host_base};
ghost use Rattle.cert_hosts.specs.Bases.{seen_base, mail_base, host_base};
ghost use Rattle.cert_hosts.specs.Reading.{IsMailBaseAt, IsHostBaseAt, IsMalformed, AreSaid, Tells, IsFirstFor};
ghost use Rattle.cert_hosts.specs.HostsWalk.{base_lists};

use crate::base::Base;
use crate::constraints::bases_in;
use asn::Tlv;
use cert::{CertFault, CertRefusal, CertRule, ExtensionValues};
use names::NameRule;
use names_hosts::{HostBase, MailBase};
use std::alloc::{AllocError, Global};

#[derive(Drop)]
pub(crate) struct BaseLists<'a> {
    pub(crate) permitted_mail: Vec<MailBase<'a>>,
    pub(crate) excluded_mail: Vec<MailBase<'a>>,
    pub(crate) permitted_hosts: Vec<HostBase<'a>>,
    pub(crate) excluded_hosts: Vec<HostBase<'a>>,
}

/// The mail addresses of the base; else the fault, at it.
fn mail_base_of(permitted: bool, value: Tlv<'_>) -> Result<MailBase<'_>, CertRefusal>
    ensures reads { IfOk result (λ base.
        IsMailBaseAt (mail_base permitted (seen_tlv value.entry)) (mail_names base)) }
    ensures refuses { IfErr result (λ refusal.
        IsMalformed (mail_base permitted (seen_tlv value.entry)) refusal.0 refusal.1) }
{
    match MailBase::read(value.body) {
        Some(base) => Ok(base),
        None => Err((CertRule::Name(NameRule::MailForm), value.at)),
    }
}

/// The hosts of the base; else the fault, at it.
fn host_base_of(permitted: bool, value: Tlv<'_>) -> Result<HostBase<'_>, CertRefusal>
    ensures reads { IfOk result (λ base.
        IsHostBaseAt (host_base permitted (seen_tlv value.entry)) (host_names base)) }
    ensures refuses { IfErr result (λ refusal.
        IsMalformed (host_base permitted (seen_tlv value.entry)) refusal.0 refusal.1) }
{
    match HostBase::read(value.body) {
        Some(base) => Ok(base),
        None => Err((CertRule::Name(NameRule::UriForm), value.at)),
    }
}

impl<'a> BaseLists<'a> {
    fn none(alloc: Global) -> BaseLists<'a>
        ensures { seen_lists result ≡ no_bases }
    {
        BaseLists {
            permitted_mail: Vec::new(alloc),
            excluded_mail: Vec::new(alloc),
            permitted_hosts: Vec::new(alloc),
            excluded_hosts: Vec::new(alloc),
        }
    }

    fn push_mail(&mut self, permitted: bool, base: MailBase<'a>) -> Result<(), AllocError>
        ensures { OnOk result (seen_lists self.new
            ≡ with_mail_base permitted (mail_names base.entry) (seen_lists self.old)) }
    {
        if permitted {
            self.permitted_mail.push(base)?;
        } else {
            self.excluded_mail.push(base)?;
        }
        Ok(())
    }

    fn push_host(&mut self, permitted: bool, base: HostBase<'a>) -> Result<(), AllocError>
        ensures { OnOk result (seen_lists self.new
            ≡ with_host_base permitted (host_names base.entry) (seen_lists self.old)) }
    {
        if permitted {
            self.permitted_hosts.push(base)?;
        } else {
            self.excluded_hosts.push(base)?;
        }
        Ok(())
    }

    fn take_mail(&mut self, permitted: bool, value: Tlv<'a>) -> Result<(), CertFault>
        ensures { Tells (mail_base permitted (seen_tlv value.entry)) (seen_lists self.old)
            (seen_lists self.new) result }
    {
        let base = mail_base_of(permitted, value)?;
        self.push_mail(permitted, base)?;
        Ok(())
    }

    fn take_host(&mut self, permitted: bool, value: Tlv<'a>) -> Result<(), CertFault>
        ensures { Tells (host_base permitted (seen_tlv value.entry)) (seen_lists self.old)
            (seen_lists self.new) result }
    {
        let base = host_base_of(permitted, value)?;
        self.push_host(permitted, base)?;
        Ok(())
    }

    /// Takes one more base; else its fault.
    fn take(&mut self, base: Base<'a>) -> Result<(), CertFault>
        ensures { Tells (seen_base base.entry) (seen_lists self.old) (seen_lists self.new) result }
    {
        match base {
            Base::Mail(permitted, value) => self.take_mail(permitted, value),
            Base::Host(permitted, value) => self.take_host(permitted, value),
        }
    }

    /// The bases; else the fault of the first that is malformed.
    fn of_bases(alloc: Global, bases: &[Base<'a>]) -> Result<BaseLists<'a>, CertFault>
        ensures reads { IfOk result (λ told. AreSaid (map seen_base bases.now) (seen_lists told)) }
        ensures refused { IfErr result (λ fault. IsFirstFor (map seen_base bases.now) fault) }
    {
        let mut told = BaseLists::none(alloc);
        for base in bases {
            match told.take(*base) {
                Ok(()) => {}
                Err(fault) => return Err(fault),
            }
        }
        Ok(told)
    }

    /// The bases of the certificate with these values of extensions; else the fault of the first that is malformed.
    pub(crate) fn read(
        alloc: Global,
        values: &ExtensionValues<'a>,
    ) -> Result<BaseLists<'a>, CertFault>
        ensures { GivesUnlessFull seen_lists result (base_lists (seen_values values.now)) }
    {
        let bases = bases_in(alloc, values)?;
        BaseLists::of_bases(alloc, &bases)
    }
}
