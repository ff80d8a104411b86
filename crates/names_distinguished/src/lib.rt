//! Distinguished names (X.501, 9.2; RFC 5280, 4.1.2.4 and 7.1): read, compared and turned into keys; and why octets are not a name.
#![tactic(auto)]

mod attribute;
mod batch;
mod fault;
mod kinds;
mod name;
mod name_key;
mod rdn;
mod rdn_sequence;
mod repetition;
mod run;

pub use attribute::{Attribute, is_text};
pub use fault::{NameRefusal, NameRule};
pub use name::{Name, name_laws};
pub use name_key::key_laws;
pub use names_text::{preparation_laws, prepared_text, same_prepared};
