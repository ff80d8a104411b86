//! The agreement of two parties, over their public calls.

ghost use Rattle.relying.specs.Agreed.{NodeAgreesWithParty, NodeIsExact, NodesAgree};
ghost use Rattle.relying.specs.Found.{NodesFindTheSame};
ghost use Rattle.relying.specs.Surviving.{NodeSurvivesCrash};
ghost use Rattle.relying.specs.Calls.{CallsFollow, ComparisonsComeThrough, DeliveriesAreRuns, RestartsAreRuns, RunsComeThrough, RunsFollow, TakingsAreRuns, VerdictsComeThrough};

use path_verifiers::Verifier;
use relying_agreement::{agreement_laws, composition_laws, verdict_laws};
use relying_search::finding_laws;
use sqlite_disk::Disk;
use store::crash_laws;

/// What the verdicts of two nodes say of one another, whatever calls came before, over whatever stores they began with, and whatever
/// verifiers and disks they have. Their verdicts are equal if both judge by one relation, the path's issuers are consistent, both hold the
/// same newest for the path, and their disks return what was written; one of the two may be a party that answers by statements at hand. A
/// verdict is valid exactly if the conditions of RFC 5280, 6.1, hold, and for each certificate a current statement speaks and none revokes
/// it. Nodes that hold the same newest for each valid path among certificates find the same path. Behind a crash the store that is taken from the files holds what the events up to there left, so that the next node begins with
/// just that.
pub fn node_laws<V: Verifier, D: Disk, W: Verifier, E: Disk>()
    ensures agree { NodesAgree V D D.Disk W E E.Disk }
    ensures party { NodeAgreesWithParty V D D.Disk }
    ensures exact { NodeIsExact V D D.Disk }
    ensures find { NodesFindTheSame V D D.Disk W E E.Disk }
    ensures survives { NodeSurvivesCrash V D D.Disk E E.Disk }
{
    crash_laws::<D, E>();
    finding_laws();
    agreement_laws();
    composition_laws();
    verdict_laws();
}

/// What one call of a node is among the events that reach it: a delivery and a restart are runs of one event, a verdict and a comparison
/// leave what is held, and calls that follow one another come through all their events.
pub fn call_laws<V: Verifier, D: Disk>()
    ensures deliveries { DeliveriesAreRuns V D D.Disk }
    ensures takings { TakingsAreRuns V D D.Disk }
    ensures restarts { RestartsAreRuns V D D.Disk }
    ensures runs { RunsComeThrough V D D.Disk }
    ensures verdicts { VerdictsComeThrough V D D.Disk }
    ensures comparisons { ComparisonsComeThrough V D D.Disk }
    ensures calls_follow { CallsFollow V D D.Disk }
    ensures runs_follow { RunsFollow V D D.Disk }
{}
