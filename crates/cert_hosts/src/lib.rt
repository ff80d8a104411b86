//! What certificates say of mail addresses and of the hosts of URIs (RFC 5280, 4.1.2.6, 4.2.1.6 and 4.2.1.10), for who asks for it.
#![tactic(auto)]

mod base;
mod base_lists;
mod certificate_hosts;
mod constraints;
mod contained;
mod mailboxes;
mod one_answer;
mod own_names;
mod subject;
mod taken;

pub use certificate_hosts::read_hosts;
pub use one_answer::certificate_hosts_laws;
pub use taken::take_hosts;
