//! Laws of the listing.

ghost use Rattle.store_listing.specs.Laws.{ListingShowsHeld, ListingListsOnce};

/// Slot by slot the listing of a store shows what the store holds.
pub fn held_laws()
    ensures { ListingShowsHeld }
{}

/// Of an issuer and a scope it has one list at most, and of a certificate one response: what the slot shows.
pub fn listed_laws()
    ensures { ListingListsOnce }
{}
