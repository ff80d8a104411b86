//! Laws of the newest.

ghost use Rattle.statements_facts.specs.Newest.{CrlsKeepNewest, ResponsesKeepNewest};
ghost use Rattle.statements_facts.specs.Coming.{ComesAsOne, TakingHoldsNewest, TakesBoth, KeptLeaveAll};

/// What is kept of facts in turn is the newest, the first among equals.
pub fn newest_laws()
    ensures crls { CrlsKeepNewest }
    ensures responses { ResponsesKeepNewest }
{}

/// A fact is counted as one thing. Facts in turn leave the newest in each slot. Two deliveries leave what their facts together leave. If
/// nothing is counted as stored, nothing has changed.
pub fn coming_laws()
    ensures once { ComesAsOne }
    ensures newest { TakingHoldsNewest }
    ensures both { TakesBoth }
    ensures kept { KeptLeaveAll }
{}
