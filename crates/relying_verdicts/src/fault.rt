//! Why there is no verdict.

use std::alloc::{AllocError, AllocFailed};
use store_sql::StoreFault;
use thiserror::Error;

/// Why there is no verdict.
#[derive(Clone, Copy, Debug, PartialEq, Eq, Error)]
pub enum Fault {
    #[error("the store does not answer: {0}")]
    Store(StoreFault),
    #[error("no memory")]
    Memory,
}

impl From<StoreFault> for Fault {
    ghost use Rattle.std.specs.Prelude.{◌≡◌};
    ghost use Rattle.relying_verdicts.specs.declared.fault.Fault.TheVariants.{Store};

    ghost from_gives = { λ store fault. fault ≡ Store store };

    fn from(fault: StoreFault) -> Fault {
        Fault::Store(fault)
    }
}

impl From<AllocError> for Fault {
    ghost use Rattle.std.specs.Prelude.{◌≡◌};
    ghost use Rattle.relying_verdicts.specs.declared.fault.Fault.TheVariants.{Memory};

    ghost from_gives = { λ _ fault. fault ≡ Memory };

    fn from(_: AllocError) -> Fault {
        Fault::Memory
    }
}

impl<T: Drop> From<AllocFailed<T>> for Fault {
    ghost use Rattle.std.specs.Prelude.{◌≡◌};
    ghost use Rattle.relying_verdicts.specs.declared.fault.Fault.TheVariants.{Memory};

    ghost from_gives = { λ _ fault. fault ≡ Memory };

    fn from(_: AllocFailed<T>) -> Fault {
        Fault::Memory
    }
}
