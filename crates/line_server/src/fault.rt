//! Why a session fails.

ghost use Rattle.std.specs.Prelude.{◌≡◌};
ghost use Rattle.line_server.specs.Faults.{read_fault};
ghost use Rattle.line_server.specs.declared.fault.ServeFault.TheVariants.{NoMemory};

use crate::ReadFault;
use std::alloc::AllocError;

/// Why a session fails.
#[derive(Clone, Copy, Debug, PartialEq, Eq)]
pub enum ServeFault {
    /// The next line can't be read.
    Input,
    /// An answer can't be written.
    Output,
    /// Memory ran out.
    NoMemory,
}

impl From<ReadFault> for ServeFault {
    ghost from_gives = { λ read fault. fault ≡ read_fault read };

    fn from(read: ReadFault) -> ServeFault {
        match read {
            ReadFault::Input => ServeFault::Input,
            ReadFault::NoMemory => ServeFault::NoMemory,
        }
    }
}

impl From<AllocError> for ServeFault {
    ghost from_gives = { λ _ fault. fault ≡ NoMemory };

    fn from(_error: AllocError) -> ServeFault {
        ServeFault::NoMemory
    }
}
