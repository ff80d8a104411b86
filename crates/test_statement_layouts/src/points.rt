//! Lists that are published by distribution point: what issuingDistributionPoint is read as in either profile, by hand from RFC 5280 and as
//! OpenSSL writes it.

mod building;
mod by_hand;
mod reading;
mod whole;
