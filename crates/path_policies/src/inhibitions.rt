//! What the counters say at each certificate.

ghost use Rattle.std.specs.Prelude.{◌≡◌, ◌&&◌, ◌||◌, ◌<◌, ℕ, not, None, length, IfOk};
ghost use Rattle.path_policies.specs.Query.{any_policy};
ghost use Rattle.path_policies.specs.Seen.{seen_policy_certificate, seen_query, seen_inhibitions, inhibitions_in};
ghost use Rattle.path_policies.specs.Steps.{inhibitions_at, inhibitions_behind, lesser, counted, states, is_within};

use crate::counter::{Counter, is_at_most};
use crate::following::stated;
use crate::lists::is_among;
use crate::policy::ANY_POLICY;
use crate::query::{PolicyCertificate, PolicyQuery};
use std::alloc::{AllocError, Global};

/// What the counters say at a certificate.
#[derive(Clone, Copy)]
pub(crate) struct Inhibitions {
    /// anyPolicy is stated and counts (RFC 5280, 6.1.3 (d) (2)).
    pub(crate) allows_any: bool,
    /// policy_mapping is 0.
    pub(crate) mapping_inhibited: bool,
    /// explicit_policy is 0.
    pub(crate) policy_required: bool,
    /// explicit_policy is 0 at the end, if this is the last certificate (6.1.5 (a) and (b)).
    pub(crate) required_behind: bool,
}

/// The three counters.
#[derive(Clone, Copy)]
pub(crate) struct Counters {
    explicit_policy: Counter,
    policy_mapping: Counter,
    inhibit_any_policy: Counter,
}

impl Counters {
    /// The counters before the first certificate.
    fn new() -> Counters
        ensures explicit { result.explicit_policy.left ≡ None }
        ensures mapping { result.policy_mapping.left ≡ None }
        ensures any { result.inhibit_any_policy.left ≡ None }
    {
        Counters {
            explicit_policy: Counter::new(),
            policy_mapping: Counter::new(),
            inhibit_any_policy: Counter::new(),
        }
    }

    /// The counters behind a certificate (6.1.4 (h) to (j)).
    fn pass(self, certificate: &PolicyCertificate<'_>) -> Counters
        ensures explicit { result.explicit_policy.left
            ≡ lesser (counted self.explicit_policy.left certificate.now.self_issued)
            certificate.now.extensions.require_explicit_policy }
        ensures mapping { result.policy_mapping.left
            ≡ lesser (counted self.policy_mapping.left certificate.now.self_issued)
            certificate.now.extensions.inhibit_policy_mapping }
        ensures any { result.inhibit_any_policy.left
            ≡ lesser (counted self.inhibit_any_policy.left certificate.now.self_issued)
            certificate.now.extensions.inhibit_any_policy }
    {
        let self_issued = certificate.self_issued;
        let extensions = &certificate.extensions;
        Counters {
            explicit_policy: self
                .explicit_policy
                .pass(self_issued, extensions.require_explicit_policy),
            policy_mapping: self
                .policy_mapping
                .pass(self_issued, extensions.inhibit_policy_mapping),
            inhibit_any_policy: self
                .inhibit_any_policy
                .pass(self_issued, extensions.inhibit_any_policy),
        }
    }

    /// Whether anyPolicy counts at a certificate (6.1.3 (d) (2)).
    fn allows_any(
        self,
        query: &PolicyQuery<'_, '_>,
        certificate: &PolicyCertificate<'_>,
        is_last: bool,
    ) -> bool
        ensures { result ≡ (states (seen_policy_certificate certificate.now) any_policy
            && (not (query.now.inhibit_any_policy || is_within self.inhibit_any_policy.left 0)
            || (not is_last && certificate.now.self_issued))) }
    {
        let is_inhibited = query.inhibit_any_policy || is_at_most(self.inhibit_any_policy.left, 0);
        is_among(stated(certificate), ANY_POLICY)
            && (!is_inhibited || (!is_last && certificate.self_issued))
    }

    /// What the counters say at a certificate.
    fn at(
        self,
        query: &PolicyQuery<'_, '_>,
        certificate: &PolicyCertificate<'_>,
        is_last: bool,
    ) -> Inhibitions
        ensures { seen_inhibitions result
            ≡ inhibitions_at (seen_query query.now) (seen_policy_certificate certificate.now)
            is_last
            self.explicit_policy.left self.policy_mapping.left self.inhibit_any_policy.left }
    {
        let number = certificate.extensions.require_explicit_policy;
        let is_asked = query.require_explicit_policy;
        Inhibitions {
            allows_any: self.allows_any(query, certificate, is_last),
            mapping_inhibited: query.inhibit_policy_mapping
                || is_at_most(self.policy_mapping.left, 0),
            policy_required: is_asked || is_at_most(self.explicit_policy.left, 0),
            required_behind: is_asked
                || is_at_most(self.explicit_policy.left, 1)
                || is_at_most(number, 0),
        }
    }
}

/// What the counters say at each certificate, in order.
pub(crate) fn inhibitions_of(
    alloc: Global,
    query: &PolicyQuery<'_, '_>,
) -> Result<Vec<Inhibitions>, AllocError>
    ensures count { IfOk result (λ each. length each.items ≡ length query.now.certificates.now) }
    ensures each { IfOk result (λ each. (i : ℕ) → i < length query.now.certificates.now →
        inhibitions_in each.items i ≡ inhibitions_behind (seen_query query.now) i) }
{
    let certificates = query.certificates;
    let mut counters = Counters::new();
    let mut each = Vec::new(alloc);
    for (index, certificate) in certificates.iter().enumerate() {
        let is_last = index + 1 == certificates.len();
        each.push(counters.at(query, certificate, is_last))?;
        counters = counters.pass(certificate);
    }
    Ok(each)
}
