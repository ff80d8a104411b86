//! The processing of the policies of a path under way, one certificate after the other (RFC 5280, 6.1.2 to 6.1.5).

ghost use Rattle.std.specs.Prelude.{◌≡◌, ◌+◌, ◌<◌, ◌≤◌, IfOk};
ghost use Rattle.path_policies.specs.Outcome.{AreAcceptableBefore};
ghost use Rattle.path_policies.specs.Query.{count};
ghost use Rattle.path_policies.specs.Seen.{seen_query};
ghost use Rattle.path_policies.specs.State.{TakesPolicyStep};

use crate::inhibitions::{Inhibitions, inhibitions_of};
use crate::policy::ANY_POLICY;
use crate::policy_set::PolicySet;
use crate::processing::end;
use crate::query::PolicyQuery;
use crate::reason::{PolicyOutcome, PolicyReason, PolicySets};
use crate::walk::{Step, take_certificate};
use std::alloc::{AllocError, Global};
use std::marker::Model;

/// The processing of the policies of a path under way: it has taken the first certificates, and each of them is acceptable.
#[derive(Drop)]
pub struct PolicyState<'p, 'c> {
    query: PolicyQuery<'p, 'c>,
    /// What the counters say at each certificate.
    each: Vec<Inhibitions>,
    /// Of each certificate that has passed, the policies whose parent is anyPolicy.
    firsts: Vec<Vec<&'c [u8]>>,
    /// The policies that are expected of the next certificate.
    policies: PolicySet<'c>,
}

impl<'p, 'c> Model for PolicyState<'p, 'c> {
    ghost use Rattle.std.specs.Prelude.{length};
    ghost use Rattle.std.specs.Coded.{codes};
    ghost use Rattle.path_policies.specs.Seen.{seen_query};
    ghost use Rattle.path_policies.specs.Progress.{PolicyProgress, Represents};

    ghost Value = { PolicyProgress };

    ghost coded = { Prim.hlevel (codes) };

    ghost view = { λ s. record { query = seen_query s.query; done = length s.firsts.items } };

    ghost invariant = { λ s. Represents (seen_query s.query) s.each.items s.firsts.items
        s.policies };
}

/// What a step says.
#[derive(Drop)]
pub enum PolicyStep<'p, 'c> {
    /// The next certificate is acceptable for its policies (6.1.3 (f), 6.1.4 (a)).
    Passed(PolicyState<'p, 'c>),
    /// The certificate of this number is refused, and why. It is the next one; or the last one, which has passed, if a policy is required
    /// at the end and none of the user's is valid (6.1.5 (g)).
    Failed(usize, PolicyReason),
    /// All certificates have passed, and these are the policies at the end.
    Ended(PolicySets<'c>),
}

impl<'p, 'c> PolicyState<'p, 'c> {
    /// The processing before the first certificate.
    pub fn start(
        alloc: Global,
        query: PolicyQuery<'p, 'c>,
    ) -> Result<PolicyState<'p, 'c>, AllocError>
        ensures query { IfOk result (λ s. s.query ≡ seen_query query.entry) }
        ensures done { IfOk result (λ s. s.done ≡ 0) }
    {
        let each = inhibitions_of(alloc, &query)?;
        let mut policies = PolicySet::new(alloc);
        policies.insert(ANY_POLICY)?;
        let firsts = Vec::new(alloc);
        Ok(PolicyState {
            query,
            each,
            firsts,
            policies,
        })
    }

    /// How many certificates have passed.
    pub fn done(&self) -> usize
        ensures done { result ≡ self.now.done }
        ensures within { result ≤ count self.now.query }
        ensures acceptable { AreAcceptableBefore self.now.query (self.now.done + 1) }
    {
        self.firsts.len()
    }

    /// Takes the next certificate.
    fn take(self, alloc: Global) -> Result<PolicyStep<'p, 'c>, AllocError>
        requires { self.done < count self.query }
        ensures { IfOk result (TakesPolicyStep self.entry) }
    {
        let PolicyState {
            query,
            each,
            firsts,
            policies,
        } = self;
        let (mut firsts, mut policies) = (firsts, policies);
        let index = firsts.len();
        let certificate = &query.certificates[index];
        let is_last = index + 1 == query.certificates.len();
        match take_certificate(alloc, certificate, each[index], is_last, &mut policies)? {
            Step::Failed(reason) => Ok(PolicyStep::Failed(index + 1, reason)),
            Step::Passed(first) => {
                firsts.push(first)?;
                Ok(PolicyStep::Passed(PolicyState {
                    query,
                    each,
                    firsts,
                    policies,
                }))
            }
        }
    }

    /// Behind the last certificate: the policies at the end, or that a policy is required and none of the user's is valid.
    fn finish(self, alloc: Global) -> Result<PolicyStep<'p, 'c>, AllocError>
        requires { self.done ≡ count self.query }
        ensures { IfOk result (TakesPolicyStep self.entry) }
    {
        let (each, firsts) = (self.each.as_slice(), self.firsts.as_slice());
        match end(alloc, &self.query, each, firsts, &self.policies)? {
            PolicyOutcome::Good(sets) => Ok(PolicyStep::Ended(sets)),
            PolicyOutcome::Bad(number, reason) => Ok(PolicyStep::Failed(number, reason)),
        }
    }

    /// Takes the next certificate; behind the last one, tells the policies that are valid at the end. Whoever steps on while certificates
    /// pass comes to the outcome that `process_policies` answers. If memory runs out, the state is lost: begin again.
    ///
    /// A certificate takes time that is n log n in its policies and mappings and in the policies that are valid; the end takes as much in
    /// the policies and mappings of all certificates together.
    pub fn next(self, alloc: Global) -> Result<PolicyStep<'p, 'c>, AllocError>
        ensures { IfOk result (TakesPolicyStep self.entry) }
    {
        if self.done() == self.query.certificates.len() {
            return self.finish(alloc);
        }
        self.take(alloc)
    }
}
