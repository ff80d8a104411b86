//! Values of the Distinguished Encoding Rules (X.690): whether octets are one, the values inside as parts of the octets,
//! numbers and times.
#![tactic(auto)]

mod cursor;
mod identifier;
mod layout;
mod nested;
mod number;
mod oid;
mod time;
mod tlv;
mod walk;

pub use cursor::whole;
pub use der::{Fault, Rule, check};
pub use identifier::{
    BIT_STRING, BOOLEAN, ENUMERATED, GENERALIZED_TIME, IA5_STRING, INTEGER, OBJECT_IDENTIFIER,
    OCTET_STRING, PRINTABLE_STRING, SEQUENCE, SET, UTC_TIME, UTF8_STRING,
};
pub use layout::{member_laws, size_laws};
pub use number::Number20;
pub use oid::Oid;
pub use time::{seconds_of_time, time_laws};
pub use tlv::{Cursor, Tlv};
