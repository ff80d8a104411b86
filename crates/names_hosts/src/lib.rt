//! Constraints on mail addresses and on the hosts of URIs (RFC 5280, 4.2.1.10 and 7.5).
#![tactic(auto)]

mod host_index;
mod hosts;
mod local_part;
mod mail;
mod mail_index;
mod splits;
mod uris;

pub use host_index::HostIndex;
pub use hosts::{HostBase, host_laws, is_host};
pub use mail::{MailBase, MailName, mail_laws};
pub use mail_index::MailIndex;
pub use uris::{host_of_uri, uri_laws};
