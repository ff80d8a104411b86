//! A store of the newest revocation statements: over files or memory, made, taken over, looked up, closed.
#![tactic(auto)]

mod adopting;
mod connecting;
mod crash;
mod handle;
mod look_up;
mod paths;
mod putting;
mod refusal;
mod reopening;

pub use adopting::{adopt, take_over};
pub use crash::crash_laws;
pub use handle::Store;
pub use look_up::{look_up_crl, look_up_ocsp};
pub use refusal::{OpenFault, Refused, ReopenFault};
