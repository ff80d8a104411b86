//! General names of certificates and the subtrees that constrain them (RFC 5280, 4.2.1.6 and 4.2.1.10).
#![tactic(auto)]

mod dns;
mod general;
mod general_reading;
mod ip;
mod subtree;

pub use dns::{Domain, domain_laws, is_dns_name};
pub use general::{Form, General};
pub use general_reading::{coverage_laws, form_of_tag, general_laws};
pub use ip::{IpFault, IpRange, is_ip_address, range_laws};
pub use names_distinguished::{
    Attribute, Name, NameRefusal, NameRule, is_text, key_laws, name_laws, preparation_laws,
    prepared_text, same_prepared,
};
pub use subtree::{Subtree, subtree_laws};
