//! Laws of verdicts, of what is held, and of agreement.

ghost use Rattle.relying_agreement.specs.Agreement.{AllIsEnough, HeldWasSeen, OneOfANumberIsConsistent, PartiesAgree, PointwiseIsEnough, RunsAgree, RunsAgreeWhereAllAreConsistent, SameNewestIsTheSame};
ghost use Rattle.relying_agreement.specs.Becoming.{OutcomesArePlaces};
ghost use Rattle.relying_agreement.specs.Comparison.{ComparisonExists, ComparisonIsOne, NeverDiffers};
ghost use Rattle.relying_agreement.specs.Examples.{AllPremisesHold, NeedsConsistency, NeedsHoldsNewest, NeedsOneVerifier, NeedsSameNewest, StrangersDoNotMatter};
ghost use Rattle.relying_agreement.specs.KnownVerdicts.{KnownVerdicts, NamesDifferenceAtLimitedPoint, NamesFirstDifference};
ghost use Rattle.relying_agreement.specs.Run.{EachHoldsNewest, RunsCompose, StepsMakeARun};
ghost use Rattle.relying_agreement.specs.Verdict.{HeldRevocationCounts, InvalidExactlyWhere, RevokedExactlyWhere, UnknownExactlyWhere, ValidExactlyWhere, VerdictIsOne};

use path::outcome_laws;

/// A question has one verdict. Each verdict is given exactly if its words hold: a path is valid exactly if it meets all conditions, and of
/// each certificate a current statement speaks, and none revokes it. A list at any point of a certificate revokes it.
pub fn verdict_laws()
    ensures one { VerdictIsOne }
    ensures invalid { InvalidExactlyWhere }
    ensures valid { ValidExactlyWhere }
    ensures revoked { RevokedExactlyWhere }
    ensures unknown { UnknownExactlyWhere }
    ensures not_hidden { HeldRevocationCounts }
{
    outcome_laws();
}

/// Runs compose, and calls that each do their part make a run.
pub fn composition_laws()
    ensures compose { RunsCompose }
    ensures each { EachHoldsNewest }
    ensures steps { StepsMakeARun }
{}

/// A fact is counted as stored exactly if it is newer than each before it in its slot, as contradicted if it contradicts the newest of
/// them, and else as kept.
pub fn taking_laws()
    ensures { OutcomesArePlaces }
{}

/// Whatever reaches two relying parties, their verdicts on a path are equal if both hold the same newest statements for it.
pub fn agreement_laws()
    ensures agree { PartiesAgree }
    ensures runs_agree { RunsAgree }
    ensures all_agree { RunsAgreeWhereAllAreConsistent }
    ensures seen { HeldWasSeen }
    ensures same { SameNewestIsTheSame }
    ensures all { AllIsEnough }
    ensures issued { OneOfANumberIsConsistent }
    ensures pointwise { PointwiseIsEnough }
{
    outcome_laws();
}

/// A comparison has one answer, and never that the two differ if both hold the same newest.
pub fn comparison_laws()
    ensures exists { ComparisonExists }
    ensures one { ComparisonIsOne }
    ensures never { NeverDiffers }
{
    outcome_laws();
}

/// The premises can all hold, each is needed, and computing gives the known verdicts of a table.
pub fn agreement_examples()
    ensures all_hold { AllPremisesHold }
    ensures consistency { NeedsConsistency }
    ensures same_newest { NeedsSameNewest }
    ensures holds_newest { NeedsHoldsNewest }
    ensures one_verifier { NeedsOneVerifier }
    ensures strangers { StrangersDoNotMatter }
    ensures known { KnownVerdicts }
    ensures first_difference { NamesFirstDifference }
    ensures limited_difference { NamesDifferenceAtLimitedPoint }
{}
