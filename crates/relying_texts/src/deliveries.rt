//! Verdicts on statements at hand as verdicts of relying parties.

ghost use Rattle.relying_texts.specs.Deliveries.{StatementsMakeARun};

/// A verdict by statements at hand is that of a relying party that has run: it began with nothing, each statement was delivered with the
/// certificate of each issuer of the path, and the genuine ones were taken.
pub fn delivery_laws()
    ensures run { StatementsMakeARun }
{}
