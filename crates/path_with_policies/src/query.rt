//! What is asked of a path whose policies are processed.

ghost use Rattle.std.specs.Prelude.{◌≡◌, ◌∷◌, Ok, IfOk, IfErr, map};
ghost use Rattle.std.specs.Option.{option_copied};
ghost use Rattle.cert.specs.Certificate.{certificate, seen_certificate};
ghost use Rattle.path.specs.Options.{stated_options};
ghost use Rattle.path.specs.Reading.{seen_query, texts_of};
ghost use Rattle.path_policies.specs.Seen.{seen_query as seen_policies};
ghost use Rattle.path_with_policies.specs.WithPolicies.{HasPoliciesOfEach};
ghost use Rattle.path_with_policies.specs.Asking.{HasInputs, IsOfQuery, IsRefusedFor, IsPathOf, IsTextRefused};

use crate::apart::policies_apart;
use asn::Oid;
use path::{Query, QueryFault};
use path_policies::{PolicyCertificate, PolicyQuery};
use std::alloc::Global;
use std::marker::Model;

/// What the user asks of policies (RFC 5280, 6.1.1).
#[derive(Clone, Copy)]
pub struct PolicyInputs<'p, 'c> {
    /// user-initial-policy-set (c): with anyPolicy among them, every policy.
    pub initial_policies: &'p [Oid<'c>],
    /// initial-policy-mapping-inhibit (e)
    pub inhibit_policy_mapping: bool,
    /// initial-explicit-policy (f)
    pub require_explicit_policy: bool,
    /// initial-any-policy-inhibit (g)
    pub inhibit_any_policy: bool,
}

/// A question about a path whose policies are processed.
#[derive(Drop)]
pub struct QueryWithPolicies<'p, 'c> {
    path: Query<'c>,
    policies: Vec<PolicyCertificate<'c>>,
    inputs: PolicyInputs<'p, 'c>,
}

impl<'p, 'c> Model for QueryWithPolicies<'p, 'c> {
    ghost use Rattle.std.specs.Prelude.{◌≡◌, length};
    ghost use Rattle.std.specs.Coded.{codes};
    ghost use Rattle.path_conditions.specs.Codes.{rdn_code};
    ghost use Rattle.path.specs.Reading.{seen_query};
    ghost use Rattle.path_with_policies.specs.WithPolicies.{QueryWithPolicies};
    ghost use Rattle.path_with_policies.specs.Inputs.{asked_of};

    ghost Value = { QueryWithPolicies };

    ghost coded = { Prim.hlevel (codes, rdn_code) };

    ghost view = { λ q. record { path = seen_query q.path; policies = asked_of q.policies.items q.inputs } };

    ghost invariant = { λ q. length q.policies.items ≡ length q.path.path.items };
}

impl<'p, 'c> QueryWithPolicies<'p, 'c> {
    /// Takes the policies of the certificates of a query apart; its options stay. If the extensions about policies of one are malformed, the
    /// first such certificate is reported, from 1 on. Time is that of reading the extensions once more.
    pub fn of(
        alloc: Global,
        query: Query<'c>,
        inputs: PolicyInputs<'p, 'c>,
    ) -> Result<QueryWithPolicies<'p, 'c>, QueryFault>
        ensures query { IfOk result (IsOfQuery query.entry) }
        ensures inputs { IfOk result (λ q. HasInputs inputs.entry q.policies) }
        ensures refused { IfErr result (λ refusal.
            IsRefusedFor query.entry refusal.certificate refusal.fault) }
    {
        let mut path = query;
        match policies_apart(alloc, path.path.as_mut_slice()) {
            Ok(policies) => Ok(QueryWithPolicies {
                path,
                policies,
                inputs,
            }),
            Err((index, fault)) => Err(QueryFault {
                certificate: index + 1,
                fault,
            }),
        }
    }

    /// Reads the certificates from DER, from below the anchor down, with their policies, and asks about them in the stated profile. The first
    /// text that is no certificate is reported, the anchor being 0; else the first whose extensions about policies are malformed.
    pub fn read(
        alloc: Global,
        anchor: &'c [u8],
        path: &[&'c [u8]],
        moment: i64,
        purpose: Option<&'c [u8]>,
        inputs: PolicyInputs<'p, 'c>,
    ) -> Result<QueryWithPolicies<'p, 'c>, QueryFault>
        ensures anchor { IfOk result (λ q. certificate anchor.now ≡ Ok q.path.anchor) }
        ensures path { IfOk result (IsPathOf (texts_of path.now)) }
        ensures moment { IfOk result (λ q. q.path.moment ≡ moment) }
        ensures purpose { IfOk result (λ q. q.path.purpose ≡ option_copied purpose.entry) }
        ensures options { IfOk result (λ q. q.path.options ≡ stated_options) }
        ensures inputs { IfOk result (λ q. HasInputs inputs.entry q.policies) }
        ensures refused { IfErr result (λ refusal. IsTextRefused anchor.now (texts_of path.now)
            refusal.certificate refusal.fault) }
    {
        let query = Query::read(alloc, anchor, path, moment, purpose)?;
        QueryWithPolicies::of(alloc, query, inputs)
    }

    /// The path without its policies, of which a party may be asked: no certificate of it is refused because it needs policy processing.
    pub fn path(&self) -> &Query<'c>
        ensures path { seen_query result.now ≡ self.now.path }
        ensures each { HasPoliciesOfEach self.now }
    {
        &self.path
    }

    /// The policies alone.
    pub fn policies(&self) -> PolicyQuery<'_, 'c>
        ensures policies { seen_policies result ≡ self.now.policies }
        ensures each { HasPoliciesOfEach self.now }
    {
        PolicyQuery {
            certificates: self.policies.as_slice(),
            initial_policies: self.inputs.initial_policies,
            inhibit_policy_mapping: self.inputs.inhibit_policy_mapping,
            require_explicit_policy: self.inputs.require_explicit_policy,
            inhibit_any_policy: self.inputs.inhibit_any_policy,
        }
    }
}
