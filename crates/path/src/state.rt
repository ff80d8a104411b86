//! The validation of a path under way, one certificate after the other (RFC 5280, 6.1.2 to 6.1.5).

ghost use Rattle.std.specs.Prelude.{◌≡◌, ◌↔◌, ◌<◌, ◌≤◌, ◌+◌, IsTrue, IsOk, IfOk, OnOk, OnErr, MatchOption, false, Some};
ghost use Rattle.std.specs.List.{list_any};
ghost use Rattle.std.specs.Option.{option_copied};
ghost use Rattle.std.specs.Str.{bytes_eq};
ghost use Rattle.cert.specs.Certificate.{is_self_issued, seen_certificate};
ghost use Rattle.path.specs.declared.reason.Reason.TheVariants as reason;
ghost use Rattle.path.specs.Options.{stated_options};
ghost use Rattle.path.specs.Query.{count, certificate_numbered};
ghost use Rattle.path.specs.Conditions.{AreNamesChecked, ConstraintsAreProcessed, hosts_at};
ghost use Rattle.path.specs.Validity.{IsServed};
ghost use Rattle.path_conditions.specs.Constraints.{subtree_count};
ghost use Rattle.path_host_constraints.specs.HostConstraints.{AreLeftBy};
ghost use Rattle.path.specs.State.{question, TakesStep, NextMeets, MeetsAll, NextBreaks, NextPasses, AdmitsExactly, CarriesNoSubtree, subtrees_up_to};
ghost use Rattle.path.specs.Keeping.{spent, lesser};

use crate::options::Options;
use crate::reason::{Reason, Step};
use cert::Certificate;
use names::Name;
use path_conditions::{
    Constraints, FormSet, allows_purpose, are_critical_extensions_known, has_begun,
    has_not_expired, is_ca, may_sign_certificates, needs_no_policy_tree, path_length,
};
use path_verifiers::Verifier;
use std::alloc::{AllocError, Global};
use std::marker::Model;

/// The most certificates of a path that is served.
pub(crate) const MOST_CERTIFICATES: usize = 128;

/// The reasons for which a certificate is refused, by rank.
const REASONS: [Reason; 14] = [
    Reason::Repeated,
    Reason::Signature,
    Reason::NotYet,
    Reason::Expired,
    Reason::Issuer,
    Reason::NotPermitted,
    Reason::Excluded,
    Reason::ConstraintForm,
    Reason::NotCa,
    Reason::PathLength,
    Reason::KeyCertSign,
    Reason::Policy,
    Reason::CriticalUnknown,
    Reason::Purpose,
];

/// A validation of a path under way.
///
/// It holds what the certificates that have passed leave behind: the name and the key of the issuer, how many more certificates the path
/// lengths allow, the subtrees that name constraints leave, and which forms of names are constrained but not processed. It looks back at
/// earlier certificates only to see whether one is repeated.
#[derive(Drop)]
pub struct State<'p, 'c, V> {
    alloc: Global,
    verifier: &'p V,
    anchor: &'p Certificate<'c>,
    path: &'p [Certificate<'c>],
    moment: i64,
    purpose: Option<&'p [u8]>,
    options: Options,
    done: usize,
    issuer: Name<'c>,
    key: &'c [u8],
    room: Option<u32>,
    constraints: Constraints<'c>,
    forms: FormSet,
}

impl<'p, 'c, V> Model for State<'p, 'c, V> {
    ghost use Rattle.std.specs.Option.{option_copied};
    ghost use Rattle.names.specs.GeneralView.{name_contents};
    ghost use Rattle.path.specs.State.{Progress, query_of};
    ghost use Rattle.path_conditions.specs.Constraints.{seen_constraints};
    ghost use Rattle.path.specs.Keeping.{Represents};
    ghost use Rattle.std.specs.Coded.{codes};
    ghost use Rattle.path_conditions.specs.Codes.{rdn_code};

    ghost Value = { Progress V };

    ghost coded = { Prim.hlevel (codes, rdn_code, V.code) };

    ghost view = { λ s. record {
      verifier = s.verifier.now;
      query = query_of s.anchor.now s.path.now s.moment (option_copied s.purpose) s.options;
      done = s.done;
      constraints = seen_constraints s.constraints;
    } };

    ghost invariant = { λ s. Represents (query_of s.anchor.now s.path.now s.moment (option_copied s.purpose) s.options) s.done
        (name_contents s.issuer) s.key.now s.room (seen_constraints s.constraints) s.forms };
}

/// How many more certificates may follow that are not self-issued, behind this one and without its own path length. Subject and issuer
/// are compared only if that is limited.
fn room_behind(room: Option<u32>, certificate: &Certificate<'_>) -> Option<u32>
    ensures { result ≡ spent room (is_self_issued (seen_certificate certificate.now)) }
{
    match room {
        None => None,
        Some(room) if certificate.self_issued() => Some(room),
        Some(room) => Some(room.saturating_sub(1)),
    }
}

/// The lesser of two path lengths.
fn lesser_of(room: Option<u32>, path_length: Option<u32>) -> Option<u32>
    ensures { result ≡ lesser room path_length }
{
    match (room, path_length) {
        (None, path_length) => path_length,
        (Some(room), None) => Some(room),
        (Some(room), Some(path_length)) => Some(room.min(path_length)),
    }
}

/// Whether this certificate may follow. Subject and issuer are compared only if no more may that are not self-issued.
fn has_room(room: Option<u32>, certificate: &Certificate<'_>) -> bool
    ensures { IsTrue result
        ↔ (is_self_issued (seen_certificate certificate.now) ≡ false → ¬ (room ≡ Some 0)) }
{
    room != Some(0) || certificate.self_issued()
}

/// Whether two texts are the same. The last octet is looked at first: it is one of a signature, and mostly tells.
#[inline(always)]
fn is_same(one: &[u8], other: &[u8]) -> bool
    ensures { result ≡ bytes_eq one.now other.now }
{
    one.last() == other.last() && one == other
}

/// Whether one of the certificates has the same octets.
fn repeats(earlier: &[Certificate<'_>], later: &Certificate<'_>) -> bool
    ensures { result ≡ list_any (λ c. bytes_eq c.octets.now later.now.octets.now) earlier.now }
{
    earlier.iter().any(|c| is_same(c.octets, later.octets))
}

impl<'p, 'c, V: Verifier> State<'p, 'c, V> {
    /// The validation before the first certificate, in the stated profile, as `start_with`.
    pub fn start(
        alloc: Global,
        verifier: &'p V,
        anchor: &'p Certificate<'c>,
        path: &'p [Certificate<'c>],
        moment: i64,
        purpose: Option<&'p [u8]>,
    ) -> State<'p, 'c, V>
        ensures verifier { result.verifier ≡ verifier.now }
        ensures query { result.query
            ≡ question anchor.now path.now moment purpose.entry stated_options }
        ensures done { result.done ≡ 0 }
    {
        let options = Options::stated();
        State::start_with(alloc, verifier, anchor, path, moment, purpose, options)
    }

    /// The validation before the first certificate. `moment` is in seconds from 1970-01-01T00:00:00Z, `purpose` the contents of an OBJECT
    /// IDENTIFIER, if one is asked for. No memory is taken.
    pub fn start_with(
        alloc: Global,
        verifier: &'p V,
        anchor: &'p Certificate<'c>,
        path: &'p [Certificate<'c>],
        moment: i64,
        purpose: Option<&'p [u8]>,
        options: Options,
    ) -> State<'p, 'c, V>
        ensures verifier { result.verifier ≡ verifier.now }
        ensures query { result.query ≡ question anchor.now path.now moment purpose.entry options }
        ensures done { result.done ≡ 0 }
    {
        State {
            alloc,
            verifier,
            anchor,
            path,
            moment,
            purpose,
            options,
            done: 0,
            issuer: anchor.subject,
            key: anchor.subject_public_key_info.value.whole,
            room: None,
            constraints: Constraints::none(alloc),
            forms: FormSet::new(),
        }
    }

    /// How many certificates have passed. Their constraints admit exactly the names that may follow, and the mail addresses and hosts.
    pub fn done(&self) -> usize
        ensures done { result ≡ self.now.done }
        ensures within { result ≤ count self.now.query }
        ensures admits { AdmitsExactly self.now.query self.now.done self.now.constraints }
        ensures hosts { AreLeftBy (hosts_at self.now.query) (self.now.done + 1)
            self.now.constraints.hosts }
    {
        self.done
    }

    /// How many subtrees are held: at most as many as the certificates that have passed carry.
    pub fn subtrees(&self) -> usize
        ensures value { result ≡ subtree_count self.now.constraints }
        ensures bound { result ≤ subtrees_up_to self.now.query self.now.done }
    {
        self.constraints.len()
    }

    /// The certificate behind those that have passed.
    fn certificate(&self) -> &'p Certificate<'c>
        requires { self.now.done < count self.now.query }
        ensures { seen_certificate result.now ≡ certificate_numbered self.now.query
            (self.now.done + 1) }
    {
        let path = self.path;
        &path[self.done]
    }

    /// Whether that certificate is the last one.
    fn is_last(&self) -> bool
        requires { self.now.done < count self.now.query }
        ensures { IsTrue result ↔ (self.now.done + 1 ≡ count self.now.query) }
    {
        self.done + 1 == self.path.len()
    }

    /// Whether its names are checked.
    fn are_names_checked(&self) -> bool
        requires { self.now.done < count self.now.query }
        ensures { IsTrue result ↔ AreNamesChecked self.now.query (self.now.done + 1) }
    {
        self.is_last() || !self.certificate().self_issued()
    }

    /// Whether no earlier certificate has the same octets. It is compared with each as long as the octets are the same.
    fn is_not_repeated(&self) -> bool
        requires { self.now.done < count self.now.query }
        ensures { IsTrue result ↔ NextMeets V.accepts self.now reason.Repeated }
    {
        let path = self.path;
        !repeats(&path[..self.done], self.certificate())
    }

    fn is_signed_by_issuer(&self) -> bool
        requires { self.now.done < count self.now.query }
        ensures { IsTrue result ↔ NextMeets V.accepts self.now reason.Signature }
    {
        let certificate = self.certificate();
        self.verifier.judge(
            certificate.algorithm.value.whole,
            self.key,
            certificate.tbs.whole,
            certificate.signature.octets(),
        )
    }

    fn is_named_by_issuer(&self) -> bool
        requires { self.now.done < count self.now.query }
        ensures { IsTrue result ↔ NextMeets V.accepts self.now reason.Issuer }
    {
        self.certificate().issuer.matches(&self.issuer)
    }

    // The constraints are asked first in each of the three: mostly there are none, and comparing subject and issuer costs more.
    fn are_names_permitted(&self) -> bool
        requires { self.now.done < count self.now.query }
        ensures { IsTrue result ↔ NextMeets V.accepts self.now reason.NotPermitted }
    {
        self.constraints.permits_names_of(self.certificate()) || !self.are_names_checked()
    }

    fn are_names_not_excluded(&self) -> bool
        requires { self.now.done < count self.now.query }
        ensures { IsTrue result ↔ NextMeets V.accepts self.now reason.Excluded }
    {
        self.constraints.excludes_no_name_of(self.certificate()) || !self.are_names_checked()
    }

    /// Whether no form that a name has and that is not processed is constrained, nor URIs where one has no host.
    fn is_no_other_form_constrained(&self) -> bool
        requires { self.now.done < count self.now.query }
        ensures { IsTrue result ↔ ConstraintsAreProcessed self.now.query (self.now.done + 1) }
    {
        let certificate = self.certificate();
        !self.forms.has_form_of_name_of(certificate) && self.constraints.finds_hosts_of(certificate)
    }

    fn are_constraints_processed(&self) -> bool
        requires { self.now.done < count self.now.query }
        ensures { IsTrue result ↔ NextMeets V.accepts self.now reason.ConstraintForm }
    {
        self.is_no_other_form_constrained() || !self.are_names_checked()
    }

    fn is_within_path_length(&self) -> bool
        requires { self.now.done < count self.now.query }
        ensures { IsTrue result ↔ NextMeets V.accepts self.now reason.PathLength }
    {
        self.is_last() || has_room(self.room, self.certificate())
    }

    /// Whether the certificate meets the condition whose breach is the reason.
    fn meets(&self, reason: Reason) -> bool
        requires { self.now.done < count self.now.query }
        ensures { IsTrue result ↔ NextMeets V.accepts self.now reason }
    {
        let certificate = self.certificate();
        match reason {
            Reason::Repeated => self.is_not_repeated(),
            Reason::Signature => self.is_signed_by_issuer(),
            Reason::NotYet => has_begun(certificate, self.moment),
            Reason::Expired => has_not_expired(certificate, self.moment),
            Reason::Issuer => self.is_named_by_issuer(),
            Reason::NotPermitted => self.are_names_permitted(),
            Reason::Excluded => self.are_names_not_excluded(),
            Reason::ConstraintForm => self.are_constraints_processed(),
            Reason::NotCa => self.is_last() || is_ca(certificate),
            Reason::PathLength => self.is_within_path_length(),
            Reason::KeyCertSign => self.is_last() || may_sign_certificates(certificate),
            Reason::Policy => needs_no_policy_tree(certificate),
            Reason::CriticalUnknown => are_critical_extensions_known(
                self.options.profile,
                certificate,
            ),
            Reason::Purpose => {
                !self.is_last() || allows_purpose(self.options.profile, certificate, self.purpose)
            }
            Reason::Empty | Reason::TooLong => true,
            Reason::NoValidPolicy | Reason::AnyPolicyMapped | Reason::NoUserPolicy => true,
        }
    }

    /// The condition of the least rank that the certificate breaks.
    fn broken(&self) -> Option<Reason>
        requires { self.now.done < count self.now.query }
        ensures { MatchOption result (MeetsAll V.accepts self.now) (NextBreaks V.accepts self.now) }
    {
        for reason in REASONS {
            if !self.meets(reason) {
                return Some(reason);
            }
        }
        None
    }

    /// Lets the certificate pass.
    fn pass(&mut self) -> Result<(), AllocError>
        requires below { self.old.done < count self.old.query }
        requires served { IsServed self.old.query }
        requires length { NextMeets V.accepts self.old reason.PathLength }
        ensures done { OnOk result (self.new.done ≡ self.old.done + 1) }
        ensures query { OnOk result (self.new.query ≡ self.old.query) }
        ensures verifier { OnOk result (self.new.verifier ≡ self.old.verifier) }
        ensures err { OnErr result (self.new ≡ self.old) }
        ensures calm { CarriesNoSubtree self.old.query (self.old.done + 1) → IsOk result }
    {
        let certificate = self.certificate();
        self.constraints.narrow(self.alloc, certificate)?;
        self.forms
            .insert_forms_of(&certificate.extensions.name_constraints);
        self.room = lesser_of(
            room_behind(self.room, certificate),
            path_length(certificate),
        );
        self.issuer = certificate.subject;
        self.key = certificate.subject_public_key_info.value.whole;
        self.done += 1;
        Ok(())
    }

    /// Looks at the next certificate, which passes if it meets all conditions. After `Failed` and `Ended` each further call answers the
    /// same; after lack of memory nothing has changed.
    ///
    /// Names, and subtrees, are looked for among the subtrees held or excluded by halving. A certificate that carries subtrees costs a walk
    /// over those held, too. To this comes the search for a repeated certificate. Memory is taken only if the certificate passes and carries
    /// a subtree of a processed form.
    pub fn next(&mut self) -> Result<Step, AllocError>
        ensures step { IfOk result (TakesStep V.accepts self.old self.new) }
        ensures err { OnErr result (self.new ≡ self.old) }
        // Memory is asked for only if the certificate passes, and carries a subtree of a processed form.
        ensures passing { OnErr result (NextPasses V.accepts self.old) }
        ensures calm { CarriesNoSubtree self.old.query (self.old.done + 1) → IsOk result }
    {
        let count = self.path.len();
        if count == 0 {
            return Ok(Step::Failed(Reason::Empty));
        }
        if count > MOST_CERTIFICATES {
            return Ok(Step::Failed(Reason::TooLong));
        }
        if self.done == count {
            return Ok(Step::Ended);
        }
        if let Some(reason) = self.broken() {
            return Ok(Step::Failed(reason));
        }
        self.pass()?;
        Ok(Step::Passed)
    }
}
