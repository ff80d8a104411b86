//! Distribution points of certificates: rows by hand from RFC 5280, and as OpenSSL writes them.

mod by_hand;
mod memory;
mod reading;
mod whole;
