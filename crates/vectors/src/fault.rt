//! Why a text gives no certificate and no revocation list.

use der_tree::EncodeFault;
use std::alloc::{AllocError, AllocFailed};
use thiserror::Error;

/// Why there is no certificate, or no revocation list, of a text.
#[derive(Clone, Copy, Debug, PartialEq, Eq, Error)]
pub enum NotationFault {
    #[error("no memory")]
    Memory,
    /// The text is none of the notation. What is wrong stands at this offset.
    #[error("not in the notation at {0}")]
    Text(usize),
    /// No DER has what the text asks for, as a serial number of no octets.
    #[error("no octets encode what the text asks for")]
    NotSpellable,
}

impl From<AllocError> for NotationFault {
    fn from(_: AllocError) -> NotationFault {
        NotationFault::Memory
    }
}

impl<T: Drop> From<AllocFailed<T>> for NotationFault {
    fn from(_: AllocFailed<T>) -> NotationFault {
        NotationFault::Memory
    }
}

impl From<EncodeFault> for NotationFault {
    fn from(fault: EncodeFault) -> NotationFault {
        match fault {
            EncodeFault::Memory => NotationFault::Memory,
            EncodeFault::NotSpellable => NotationFault::NotSpellable,
        }
    }
}
