ghost use Rattle.std.specs.Prelude.{◌≡◌};
ghost use Rattle.pb_renew.specs.declared.unrenewed.Unrenewed.TheVariants as why;

use crate::{KernelFault, NoMemory};
use pb_renew_put::PutFault;
use thiserror::Error;

/// Why a text wasn't renewed. OUT and OUT.left are as they were, but for `Halfway`.
#[derive(Clone, Copy, Debug, PartialEq, Eq, Error)]
pub enum Unrenewed {
    /// FILE, OUT or OUT.left can't be read.
    #[error("ReadFault")]
    ReadFault,
    /// OUT or OUT.left is there and is no regular file; or OUT.left is a link.
    #[error("NoFile")]
    NoFile,
    /// OUT or OUT.left has another name, which renewing would part from it.
    #[error("Shared")]
    Shared,
    /// OUT or OUT.left has more than 67,108,864 bytes, or would have.
    #[error("TooLong")]
    TooLong,
    /// Memory ran out.
    #[error("NoMemory")]
    NoMemory,
    /// This line of OUT begins with blanks and `/*@`.
    #[error("Indented")]
    Indented(u32),
    /// OUT is no kernel file, or has bytes and no body: then the prelude is `Missing`.
    #[error("Out")]
    Out(KernelFault),
    /// This line of OUT stands outside of bodies and would be lost.
    #[error("Outside")]
    Outside(u32),
    /// This line of OUT.left begins with blanks and `/*@`.
    #[error("LeftIndented")]
    LeftIndented(u32),
    /// OUT.left is no kernel file, or has another body with the name of one that is gone.
    #[error("Left")]
    Left(KernelFault),
    /// OUT.new or OUT.left.new is there: another call is at work, or was ended, or it is somebody's own file.
    #[error("Busy")]
    Busy,
    /// FILE, OUT or OUT.left has changed meanwhile.
    #[error("Changed")]
    Changed,
    /// OUT.old is there, and OUT.old.2, and so on up to OUT.old.9999.
    #[error("Olds")]
    Olds,
    /// A file can't be written.
    #[error("WriteFault")]
    WriteFault,
    /// OUT can't be written, and OUT.left, which has the bodies that are gone behind what it had, can't be put back.
    #[error("Halfway")]
    Halfway,
}

impl From<NoMemory> for Unrenewed {
    ghost from_gives = { λ _ fault. fault ≡ why.NoMemory };

    fn from(_error: NoMemory) -> Unrenewed {
        Unrenewed::NoMemory
    }
}

impl Unrenewed {
    ghost use Rattle.std.specs.Prelude.{◌≡◌};
    ghost use Rattle.pb_renew.specs.Faults.{no_left, no_text, unput};

    /// An OUT that can't be renewed.
    pub(crate) fn no_text(fault: KernelFault) -> Unrenewed
        ensures { result ≡ no_text fault }
    {
        match fault {
            KernelFault::NoMemory => Unrenewed::NoMemory,
            other => Unrenewed::Out(other),
        }
    }

    /// An OUT.left behind which no body can be put.
    pub(crate) fn no_left(fault: KernelFault) -> Unrenewed
        ensures { result ≡ no_left fault }
    {
        match fault {
            KernelFault::NoMemory => Unrenewed::NoMemory,
            other => Unrenewed::Left(other),
        }
    }

    /// Files that couldn't be put.
    pub fn unput(fault: PutFault) -> Unrenewed
        ensures { result ≡ unput fault }
    {
        match fault {
            PutFault::NoMemory => Unrenewed::NoMemory,
            PutFault::Busy => Unrenewed::Busy,
            PutFault::Changed => Unrenewed::Changed,
            PutFault::Olds => Unrenewed::Olds,
            PutFault::ReadFault => Unrenewed::ReadFault,
            PutFault::WriteFault => Unrenewed::WriteFault,
            PutFault::Halfway => Unrenewed::Halfway,
        }
    }
}
