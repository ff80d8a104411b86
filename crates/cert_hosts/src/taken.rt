//! Certificates with what they say of mail addresses and of the hosts of URIs.

ghost use Rattle.std.specs.Prelude.{◌≡◌, IfErr, OnOk, map, filter, vec_len, ◌≤◌};
ghost use Rattle.cert.specs.Certificate.{seen_certificate};
ghost use Rattle.cert.specs.Fault.{FailsUnlessFull};
ghost use Rattle.cert.specs.NameConstraints.{seen_name_constraints};
ghost use Rattle.names.specs.GeneralView.{subtree_base};
ghost use Rattle.cert_hosts.specs.HostsWalk.{certificate_hosts};
ghost use Rattle.cert_hosts.specs.Taken.{HasTakenHosts, is_other_base, other_constraints};

use crate::certificate_hosts::read_hosts;
use cert::{CertFault, Certificate, NameConstraints};
use names::{Form, Subtree, coverage_laws};
use std::alloc::Global;

/// Whether the subtree is of neither mail addresses nor URIs.
fn is_other(base: &Subtree<'_>) -> bool
    ensures { result ≡ is_other_base (subtree_base base.now) }
{
    coverage_laws();
    !(base.has_form(Form::Other(1)) || base.has_form(Form::Other(6)))
}

/// Leaves the subtrees of other forms.
fn keep_others(subtrees: &mut Vec<Subtree<'_>>)
    ensures same { map subtree_base subtrees.new.items
        ≡ filter is_other_base (map subtree_base subtrees.old.items) }
    ensures fewer { vec_len subtrees.new ≤ vec_len subtrees.old }
{
    subtrees.retain(|base| is_other(base));
}

/// Leaves the constraints on names of other forms.
fn leave_others(constraints: &mut NameConstraints<'_>)
    ensures { seen_name_constraints constraints.new
        ≡ other_constraints (seen_name_constraints constraints.old) }
{
    keep_others(&mut constraints.permitted);
    keep_others(&mut constraints.excluded);
}

/// Takes what a certificate says of mail addresses and of the hosts of URIs into its `hosts` (RFC 5280, 4.2.1.10), and the subtrees of these
/// forms out of its `nameConstraints`: path validation then processes them, where it else refuses each name of a form that is constrained.
/// Else the first base that is malformed is reported, as by `read_hosts`, and the certificate is as it was.
pub fn take_hosts<'a>(alloc: Global, certificate: &mut Certificate<'a>) -> Result<(), CertFault>
    ensures taken { OnOk result (HasTakenHosts
        (seen_certificate certificate.old) (seen_certificate certificate.new)) }
    ensures refused { IfErr result (λ fault.
        FailsUnlessFull fault (certificate_hosts (seen_certificate certificate.old))) }
    ensures same { IfErr result (λ _. certificate.new ≡ certificate.old) }
{
    let hosts = read_hosts(alloc, certificate)?;
    leave_others(&mut certificate.extensions.name_constraints);
    certificate.hosts = hosts;
    Ok(())
}
