//! Laws of what a crash leaves.

ghost use Rattle.store.specs.Crash.{OpenShowsWhatCrashLeft, StoreTreesAreAdopted, StoreTreesAreStore, TakenStoreHoldsWhatFilesHeld, TakenStoreSurvivesCrash};

use sqlite_disk::Disk;

/// What a crash leaves of a store is a store. A connection that is opened on the trees of a store is that store, and is adopted as it is; a
/// store that is taken from files holds what they held. Behind a crash files hold what it may leave, and so does a store that is taken from
/// them.
pub fn crash_laws<D: Disk, E: Disk>()
    ensures trees { StoreTreesAreStore D D.Disk }
    ensures adopted { StoreTreesAreAdopted D D.Disk }
    ensures files { TakenStoreHoldsWhatFilesHeld D D.Disk }
    ensures shown { OpenShowsWhatCrashLeft D E D.Disk E.Disk }
    ensures survives { TakenStoreSurvivesCrash D E D.Disk E.Disk }
{}
