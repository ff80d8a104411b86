//! Why a store does not answer.

ghost use Rattle.std.specs.Prelude.{◌≡◌, ◌≢◌};
ghost use Rattle.store_sql.specs.Fault.{store_fault_number, store_fault_name, fault_from};

use sqlite::{Error as SqlError, ErrorCode};
use std::alloc::{AllocError, AllocFailed};
use thiserror::Error;

/// Why a store does not answer.
#[derive(Clone, Copy, Debug, PartialEq, Eq, Error)]
pub enum StoreFault {
    /// The database refused, for another reason than memory; or ids or places are used up.
    #[error("fault 71: the database refused")]
    Store,
    /// The tables are not those of a store, or a row is not of the form that a store writes.
    #[error("fault 72: the tables are not those of a store")]
    Schema,
    #[error("fault 73: no memory")]
    Memory,
}

impl StoreFault {
    /// The number of the fault, from 71 to 73.
    pub fn number(self) -> u8
        ensures { result ≡ store_fault_number self }
    {
        match self {
            StoreFault::Store => 71,
            StoreFault::Schema => 72,
            StoreFault::Memory => 73,
        }
    }

    /// The name of the fault, printed beside the number.
    pub fn name(self) -> &'static str
        ensures { result.now ≡ store_fault_name self }
    {
        match self {
            StoreFault::Store => "Store",
            StoreFault::Schema => "Schema",
            StoreFault::Memory => "Memory",
        }
    }
}

/// What a refusal of the database is.
impl From<SqlError> for StoreFault {
    ghost from_gives = { λ error fault. fault ≡ fault_from error };

    fn from(error: SqlError) -> StoreFault {
        match error {
            SqlError::SqliteFailure(ErrorCode::OutOfMemory) => StoreFault::Memory,
            _ => StoreFault::Store,
        }
    }
}

impl From<AllocError> for StoreFault {
    ghost use Rattle.std.specs.Prelude.{◌≡◌};
    ghost use Rattle.store_sql.specs.declared.fault.StoreFault.{StoreFault};

    ghost from_gives = { λ _ fault. fault ≡ StoreFault.Memory };

    fn from(_: AllocError) -> StoreFault {
        StoreFault::Memory
    }
}

impl<T: Drop> From<AllocFailed<T>> for StoreFault {
    ghost use Rattle.std.specs.Prelude.{◌≡◌};
    ghost use Rattle.store_sql.specs.declared.fault.StoreFault.{StoreFault};

    ghost from_gives = { λ _ fault. fault ≡ StoreFault.Memory };

    fn from(_: AllocFailed<T>) -> StoreFault {
        StoreFault::Memory
    }
}
