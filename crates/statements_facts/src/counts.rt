//! What becomes of the facts of a delivery.

ghost use Rattle.std.specs.Prelude.{◌≡◌, ◌+◌, ◌<◌};
ghost use Rattle.statements_facts.specs.Coming.{HaveOneMore, count_taken_as, total_of};

/// What becomes of a fact that comes to a store.
#[derive(Clone, Copy, Debug, PartialEq, Eq)]
pub enum TakenAs {
    /// Its slot was empty, or it is newer than what was held there.
    Stored,
    /// It is not newer, and does not contradict what is held.
    Kept,
    /// It has the number, or the times, of what is held, and says something else.
    Contradicted,
}

/// How many facts of a delivery were stored, kept out, and kept out because they contradict what is held.
#[derive(Clone, Copy, Debug, PartialEq, Eq)]
pub struct Counts {
    pub stored: usize,
    pub kept: usize,
    pub contradicted: usize,
}

impl Counts {
    /// The counts of no facts.
    pub fn none() -> Counts
        ensures counted { (outcome : _) → count_taken_as outcome result ≡ 0 }
        ensures total { total_of result ≡ 0 }
    {
        Counts {
            stored: 0,
            kept: 0,
            contradicted: 0,
        }
    }

    /// The counts with one fact more.
    pub fn and(self, outcome: TakenAs) -> Counts
        requires { total_of self < usize.MAX }
        ensures counted { HaveOneMore outcome self result }
        ensures total { total_of result ≡ total_of self + 1 }
    {
        let mut counts = self;
        match outcome {
            TakenAs::Stored => counts.stored += 1,
            TakenAs::Kept => counts.kept += 1,
            TakenAs::Contradicted => counts.contradicted += 1,
        }
        counts
    }
}
