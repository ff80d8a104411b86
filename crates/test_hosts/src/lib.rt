//! Rows of hosts, mail addresses and URIs, and of the bases of constraints on them, and whom a certificate speaks for: from the standards
//! (RFC 5280, RFC 9525) and by hand. All of this crate are tests, over the public calls of `names_hosts` and `names_identity`.
#![tactic(auto)]

#[cfg(test)]
mod addresses;
#[cfg(test)]
mod bases;
#[cfg(test)]
mod mail;
#[cfg(test)]
mod many;
#[cfg(test)]
mod matched;
#[cfg(test)]
mod refused;
#[cfg(test)]
mod uris;
