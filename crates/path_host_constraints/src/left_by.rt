//! What the constraints that are held say of the certificates that left them.

ghost use Rattle.path_host_constraints.specs.Laws.{AskAlone, NoneAreLeftAtFirst, NarrowedAreLeft, PermitExactly, ExcludeExactly, FindHostsExactly, HoldAtMost};

/// Constraints that are narrowed by one certificate after the other are left by all of them. They ask of the next certificate exactly what
/// these ask of it, and hold at most as many bases as these have.
pub fn host_constraints_laws()
    ensures first { NoneAreLeftAtFirst }
    ensures narrowed { NarrowedAreLeft }
    ensures permit { PermitExactly }
    ensures exclude { ExcludeExactly }
    ensures find { FindHostsExactly }
    ensures alone { AskAlone }
    ensures few { HoldAtMost }
{}
