//! What a certificate says of mail addresses and of the hosts of URIs.

ghost use Rattle.std.specs.Prelude.{IfOk, IfErr};
ghost use Rattle.cert.specs.Certificate.{seen_certificate};
ghost use Rattle.cert.specs.CertificateHosts.{seen_hosts};
ghost use Rattle.cert.specs.Fault.{GivesUnlessFull};
ghost use Rattle.cert_hosts.specs.Reading.{SaysHosts, IsRefusedFor};
ghost use Rattle.cert_hosts.specs.HostsWalk.{certificate_hosts};

use crate::base_lists::BaseLists;
use crate::own_names::{hosts_of, mail_of};
use cert::{CertFault, Certificate, CertificateHosts};
use std::alloc::Global;

/// Reads the mail addresses and URIs of a certificate that was read, and the bases of its constraints on them. The first base that is malformed
/// is refused, in the order in which they stand: `Name(MailForm)` for one on mail addresses, `Name(UriForm)` for one on URIs, with its offset in
/// the text handed to `asn::whole`. Names are never refused: a mail address that is no Mailbox of the form that is processed, as an
/// emailAddress in a T61String, and a URI without a fully qualified host are told as such. Time is linear in the octets.
pub fn read_hosts<'a>(
    alloc: Global,
    certificate: &Certificate<'a>,
) -> Result<CertificateHosts<'a>, CertFault>
    ensures reads { IfOk result (λ read.
        SaysHosts (seen_certificate certificate.now) (seen_hosts read)) }
    ensures refused { IfErr result (IsRefusedFor (seen_certificate certificate.now)) }
    ensures gives { GivesUnlessFull seen_hosts result
        (certificate_hosts (seen_certificate certificate.now)) }
{
    let lists = BaseLists::read(alloc, &certificate.extensions.values)?;
    let mail = mail_of(alloc, certificate)?;
    let hosts = hosts_of(alloc, certificate)?;
    Ok(CertificateHosts {
        mail,
        hosts,
        permitted_mail: lists.permitted_mail,
        excluded_mail: lists.excluded_mail,
        permitted_hosts: lists.permitted_hosts,
        excluded_hosts: lists.excluded_hosts,
    })
}
