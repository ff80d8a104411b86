//! That a certificate says one thing of mail addresses and hosts.

ghost use Rattle.cert_hosts.specs.Laws.{HostsHaveOneAnswer, SaidIsNotRefused, RefusalIsOne, HostsAreExact, RefusalsAreExact};
ghost use Rattle.cert_hosts.specs.Taken.{HostFaultIsWithin};
ghost use Rattle.cert_hosts.specs.OwnBases.{BasesAreItsOwn};

use cert::certificate_laws;

/// A certificate says one thing of mail addresses and hosts, or has one first fault in its bases, and never both; and the walk over these gives
/// just that. The fault of a certificate stands in it, or at its end. The bases that are found are those that its `name_constraints` have of
/// these forms.
pub fn certificate_hosts_laws()
    ensures one { HostsHaveOneAnswer }
    ensures either { SaidIsNotRefused }
    ensures refusal { RefusalIsOne }
    ensures exact { HostsAreExact }
    ensures exact_refusal { RefusalsAreExact }
    ensures fault { HostFaultIsWithin }
    ensures own { BasesAreItsOwn }
{
    certificate_laws();
}
