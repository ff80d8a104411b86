//! The first condition that a certificate does not meet, at the end of a path or above one.

ghost use Rattle.std.specs.Prelude.{◌↔◌, IsTrue};
ghost use Rattle.path_issuers.specs.View.{seen_search};
ghost use Rattle.path_search.specs.Authority.{seen_tail};
ghost use Rattle.path_search.specs.WhyNot.{FindsUnmet, MeetsAbove, MeetsAsTarget};

use crate::authority::{Authority, NameCheck};
use crate::tail::Tail;
use path::Reason;
use path_conditions::{
    allows_purpose, are_critical_extensions_known, has_begun, has_not_expired, is_ca,
    may_sign_certificates, needs_no_policy_tree,
};
use path_issuers::Search;

/// All reasons, by rank.
const REASONS: [Reason; 19] = [
    Reason::Repeated,
    Reason::Signature,
    Reason::NotYet,
    Reason::Expired,
    Reason::Issuer,
    Reason::NotPermitted,
    Reason::Excluded,
    Reason::ConstraintForm,
    Reason::NotCa,
    Reason::PathLength,
    Reason::KeyCertSign,
    Reason::Policy,
    Reason::CriticalUnknown,
    Reason::Purpose,
    Reason::Empty,
    Reason::TooLong,
    Reason::NoValidPolicy,
    Reason::AnyPolicyMapped,
    Reason::NoUserPolicy,
];

/// Whether the target meets, by itself, the condition whose breach is the reason.
fn target_meets(search: &Search<'_, '_>, reason: Reason) -> bool
    ensures { IsTrue result ↔ MeetsAsTarget (seen_search search.now).options
        (seen_search search.now).moment (seen_search search.now).purpose
        (seen_search search.now).target reason }
{
    let profile = search.options.profile;
    match reason {
        Reason::NotYet => has_begun(search.target, search.moment),
        Reason::Expired => has_not_expired(search.target, search.moment),
        Reason::Policy => needs_no_policy_tree(search.target),
        Reason::CriticalUnknown => are_critical_extensions_known(profile, search.target),
        Reason::Purpose => allows_purpose(profile, search.target, search.purpose),
        _ => true,
    }
}

/// The first condition that the target does not meet by itself.
pub(crate) fn unmet_by_target(search: &Search<'_, '_>) -> Option<Reason>
    ensures { FindsUnmet (MeetsAsTarget (seen_search search.now).options
        (seen_search search.now).moment (seen_search search.now).purpose
        (seen_search search.now).target) result }
{
    for reason in REASONS {
        if !target_meets(search, reason) {
            return Some(reason);
        }
    }
    None
}

impl<'p, 'c> Authority<'p, 'c> {
    /// Whether it meets, above the tail, the condition whose breach is the reason. `signed` says that its key accepts the signature of the top.
    fn meets_above(
        &self,
        search: &Search<'_, '_>,
        tail: &Tail<'_, '_>,
        signed: bool,
        reason: Reason,
    ) -> bool
        ensures { IsTrue result ↔ MeetsAbove (seen_search search.now).options (IsTrue signed)
            (seen_search search.now).moment self.now (seen_tail tail.now) reason }
    {
        let profile = search.options.profile;
        match reason {
            Reason::Repeated => tail.lacks(self.certificate.octets),
            Reason::Signature => signed,
            Reason::NotYet => has_begun(self.certificate, search.moment),
            Reason::Expired => has_not_expired(self.certificate, search.moment),
            Reason::NotPermitted => self.passes_names_below(NameCheck::Permitted, tail),
            Reason::Excluded => self.passes_names_below(NameCheck::NotExcluded, tail),
            Reason::ConstraintForm => self.passes_names_below(NameCheck::Processed, tail),
            Reason::NotCa => is_ca(self.certificate),
            Reason::PathLength => self.allows_length(tail),
            Reason::KeyCertSign => may_sign_certificates(self.certificate),
            Reason::Policy => needs_no_policy_tree(self.certificate),
            Reason::CriticalUnknown => are_critical_extensions_known(profile, self.certificate),
            Reason::TooLong => tail.above.len() < 127,
            Reason::Issuer | Reason::Purpose | Reason::Empty => true,
            Reason::NoValidPolicy | Reason::AnyPolicyMapped | Reason::NoUserPolicy => true,
        }
    }

    /// The first condition that it does not meet above the tail.
    pub(crate) fn unmet_above(
        &self,
        search: &Search<'_, '_>,
        tail: &Tail<'_, '_>,
        signed: bool,
    ) -> Option<Reason>
        ensures { FindsUnmet (MeetsAbove (seen_search search.now).options (IsTrue signed)
            (seen_search search.now).moment self.now (seen_tail tail.now)) result }
    {
        for reason in REASONS {
            if !self.meets_above(search, tail, signed, reason) {
                return Some(reason);
            }
        }
        None
    }
}
