//! Responses of the Online Certificate Status Protocol (RFC 6960, 4.2): their layout, read from DER with the first fault and its
//! place.
#![tactic(auto)]

mod cert_id;
mod cert_status;
mod certs;
mod generalized_time;
mod kind;
mod layout;
mod responder;
mod response;
mod response_extensions;
mod single;
mod single_list;
mod single_reading;

pub use cert_id::CertId;
pub use cert_status::CertStatus;
pub use certs::Certs;
pub use kind::is_response;
pub use layout::response_laws;
pub use responder::ResponderId;
pub use response::Response;
pub use single::SingleResponse;
pub use single_list::{MOST_SINGLES, SingleResponses};
pub use statements_parts::{ReadingFault, StatementRefusal, StatementRule};
