ghost use Rattle.std.specs.Prelude.{◌≡◌};
ghost use Rattle.pb_kernels.specs.declared.fault.KernelFault.TheVariants as faults;

use crate::{KName, NoMemory};
use std::alloc::{AllocError, AllocFailed};
use thiserror::Error;

/// Why bytes are no kernel file, or a kernel file doesn't fit a tree.
#[derive(Clone, Copy, Debug, PartialEq, Eq, Error)]
pub enum KernelFault {
    /// A line that begins with `/*@` and is no marker, an opening inside a body, a closing outside one, or the opening
    /// of a body that is never closed. Lines are counted from 1, and the numbers stop at 4,294,967,295.
    #[error("BadMarker")]
    BadMarker(u32),
    /// A second body with this name.
    #[error("Twice")]
    Twice(KName),
    /// The file has no body for this function of the tree.
    #[error("Missing")]
    Missing(KName),
    /// The tree has no such function.
    #[error("Extra")]
    Extra(KName),
    /// Memory ran out.
    #[error("NoMemory")]
    NoMemory,
}

impl From<NoMemory> for KernelFault {
    ghost from_gives = { λ _ fault. fault ≡ faults.NoMemory };

    fn from(_error: NoMemory) -> KernelFault {
        KernelFault::NoMemory
    }
}

impl From<AllocError> for KernelFault {
    ghost from_gives = { λ _ fault. fault ≡ faults.NoMemory };

    fn from(_error: AllocError) -> KernelFault {
        KernelFault::NoMemory
    }
}

impl<T: Drop> From<AllocFailed<T>> for KernelFault {
    ghost from_gives = { λ _ fault. fault ≡ faults.NoMemory };

    fn from(_error: AllocFailed<T>) -> KernelFault {
        KernelFault::NoMemory
    }
}
