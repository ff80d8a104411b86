//! Laws of what is held.

ghost use Rattle.store_maps.specs.Laws.{NewIssuerChangesNoMap, ReplacedListIsHeld, ReplacedSingleIsHeld};

/// A new issuer changes no map.
pub fn issuer_laws()
    ensures { NewIssuerChangesNoMap }
{}

/// A list that replaces another is held in its slot, and no other slot changes.
pub fn replaced_list_laws()
    ensures { ReplacedListIsHeld }
{}

/// What is said of a certificate replaces what was said of it in its slot, and no other slot changes.
pub fn single_laws()
    ensures { ReplacedSingleIsHeld }
{}
