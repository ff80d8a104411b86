//! What a certificate says of mail addresses and of the hosts of URIs.

ghost use Rattle.std.specs.Prelude.{◌≡◌};
ghost use Rattle.cert.specs.CertificateHosts.{no_hosts, seen_hosts};

use names_hosts::{HostBase, MailBase, MailName};
use std::alloc::Global;

/// What a certificate says of mail addresses and of the hosts of URIs (RFC 5280, 4.1.2.6, 4.2.1.6, 4.2.1.10).
#[derive(Drop)]
pub struct CertificateHosts<'a> {
    /// Of each emailAddress of its subject, and then of each rfc822Name and SmtpUTF8Mailbox of subjectAltName, in order, the mailbox; `None`
    /// if it is none of the form that is processed.
    pub mail: Vec<Option<MailName<'a>>>,
    /// Of each uniformResourceIdentifier of subjectAltName, in order, the host; `None` if it has none that is a DNS name.
    pub hosts: Vec<Option<&'a [u8]>>,
    /// The bases of permitted subtrees of mail addresses, in order.
    pub permitted_mail: Vec<MailBase<'a>>,
    /// Those of excluded ones.
    pub excluded_mail: Vec<MailBase<'a>>,
    /// The bases of permitted subtrees of URIs, in order.
    pub permitted_hosts: Vec<HostBase<'a>>,
    /// Those of excluded ones.
    pub excluded_hosts: Vec<HostBase<'a>>,
}

impl<'a> CertificateHosts<'a> {
    /// What a certificate says that says nothing of them.
    pub fn none(alloc: Global) -> CertificateHosts<'a>
        ensures { seen_hosts result ≡ no_hosts }
    {
        CertificateHosts {
            mail: Vec::new(alloc),
            hosts: Vec::new(alloc),
            permitted_mail: Vec::new(alloc),
            excluded_mail: Vec::new(alloc),
            permitted_hosts: Vec::new(alloc),
            excluded_hosts: Vec::new(alloc),
        }
    }
}
