//! That the definitions of this crate say what the valid_policy_tree of RFC 5280, 6.1, says.
ghost use Rattle.path_policies.specs.TreeLaws.{ExplicitPolicyIsExact, PolicyMappingIsExact, InhibitAnyPolicyIsExact, ExplicitPolicyIsExactAtEnd, BranchesAreTraces, BranchesLast, FirstNamedAreNodes, IntersectionIsExact, NullIsNoPolicy, RequiredPolicyIsExact, SuccessIsExact};

/// The definitions of counters and policies say what the procedure of RFC 5280, 6.1, computes. A counter is 0 exactly if the definition says
/// so. A branch of the valid_policy_tree, from a node of the last depth up to the root, is a trace of valid policies, and each trace is one.
/// At 6.1.3 (f) the tree is NULL exactly if no policy is valid there. After the last certificate a branch from any node is a trace, below whose
/// policy the last certificate has one. The intersection with the user's policies is NULL exactly if there is no policy of the user. The
/// checks of 6.1.3 (f) and at the end of 6.1.5 succeed exactly if the definition of acceptance says so.
pub fn tree_laws()
    ensures explicit_policy { ExplicitPolicyIsExact }
    ensures policy_mapping { PolicyMappingIsExact }
    ensures inhibit_any_policy { InhibitAnyPolicyIsExact }
    ensures explicit_policy_at_end { ExplicitPolicyIsExactAtEnd }
    ensures branches { BranchesAreTraces }
    ensures null { NullIsNoPolicy }
    ensures required { RequiredPolicyIsExact }
    ensures branches_last { BranchesLast }
    ensures first_named { FirstNamedAreNodes }
    ensures intersection { IntersectionIsExact }
    ensures success { SuccessIsExact }
{}
