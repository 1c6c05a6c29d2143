ghost use Rattle.std.specs.Prelude.{◌≡◌};
ghost use Rattle.pb_renew_put.specs.declared.fault.PutFault.TheVariants as fault;

use crate::NoMemory;
use thiserror::Error;

/// Why files weren't put. They are as they were, but for `Halfway`.
#[derive(Clone, Copy, Debug, PartialEq, Eq, Error)]
pub enum PutFault {
    /// Memory ran out.
    #[error("NoMemory")]
    NoMemory,
    /// OUT.new or OUT.left.new is there: another call is at work, or was ended, or it is somebody's own file.
    #[error("Busy")]
    Busy,
    /// FILE, OUT or OUT.left has changed meanwhile.
    #[error("Changed")]
    Changed,
    /// OUT.old is there, and OUT.old.2, and so on up to OUT.old.9999.
    #[error("Olds")]
    Olds,
    /// FILE, OUT or OUT.left can't be read again.
    #[error("ReadFault")]
    ReadFault,
    /// A file can't be written.
    #[error("WriteFault")]
    WriteFault,
    /// OUT can't be written, and OUT.left, which was, can't be put back: it has the bodies.
    #[error("Halfway")]
    Halfway,
}

impl From<NoMemory> for PutFault {
    ghost from_gives = { λ _ why. why ≡ fault.NoMemory };

    fn from(_error: NoMemory) -> PutFault {
        PutFault::NoMemory
    }
}
