//! What the clauses of a run say of a shelf.
ghost use Rattle.test_program.specs.Runs.{ChecksByTexts, ComparesByTexts, DeliversByTexts, DeliversThenChecks};

/// What the answers of a run say over a shelf, by octets and statements alone: a verdict is that of the texts that the words name and of
/// the statements that were put into the store at the path which they name; so is a comparison, and so is a delivery counted. What a run
/// has delivered the next one finds, over the shelf that has that statement more.
pub fn shelf_laws()
    ensures checks { ChecksByTexts }
    ensures compares { ComparesByTexts }
    ensures delivers { DeliversByTexts }
    ensures follows { DeliversThenChecks }
{}
