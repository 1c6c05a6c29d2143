ghost use Rattle.std.specs.Prelude.{◌≡◌};
ghost use Rattle.pb_io.specs.declared.fault.InFault.TheVariants.{ReadFault, NoMemory};
ghost use Rattle.pb_io.specs.declared.fault.OutFault.TheVariants.{WriteFault};

use std::alloc::AllocError;
use thiserror::Error;

/// A call of a folder or a sink failed, and its count of faults rose.
#[derive(Clone, Copy, Debug, PartialEq, Eq, Error)]
#[error("Failed")]
pub struct Failed;

/// Why a file was not read whole.
#[derive(Clone, Copy, Debug, PartialEq, Eq, Error)]
pub enum InFault {
    /// The folder failed at opening the file or at reading it.
    #[error("ReadFault")]
    ReadFault,
    /// The file has more bytes than the limit.
    #[error("TooLong")]
    TooLong,
    /// Memory ran out.
    #[error("NoMemory")]
    NoMemory,
}

/// Why bytes were not written whole.
#[derive(Clone, Copy, Debug, PartialEq, Eq, Error)]
pub enum OutFault {
    /// The sink failed.
    #[error("WriteFault")]
    WriteFault,
}

impl From<Failed> for InFault {
    ghost from_gives = { λ _ fault. fault ≡ ReadFault };

    fn from(_failed: Failed) -> InFault {
        InFault::ReadFault
    }
}

impl From<AllocError> for InFault {
    ghost from_gives = { λ _ fault. fault ≡ NoMemory };

    fn from(_error: AllocError) -> InFault {
        InFault::NoMemory
    }
}

impl From<Failed> for OutFault {
    ghost from_gives = { λ _ fault. fault ≡ WriteFault };

    fn from(_failed: Failed) -> OutFault {
        OutFault::WriteFault
    }
}
