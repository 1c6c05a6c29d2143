use pb_io::OutFault;
use pb_text::NoMemory;
use std::alloc::AllocError;
use thiserror::Error;

/// Why something wasn't kept or written.
#[derive(Clone, Copy, Debug, Error)]
pub enum RecordFault {
    /// The sink failed.
    #[error("WriteFault")]
    WriteFault,
    /// Memory ran out.
    #[error("NoMemory")]
    NoMemory,
}

impl From<NoMemory> for RecordFault {
    ghost use Rattle.std.specs.Prelude.{◌≡◌};
    ghost use Rattle.pb_sim_play.specs.declared.fault.RecordFault.TheVariants as F;

    ghost from_gives = { λ _ e. e ≡ F.NoMemory };

    fn from(_error: NoMemory) -> RecordFault {
        RecordFault::NoMemory
    }
}

impl From<OutFault> for RecordFault {
    ghost use Rattle.std.specs.Prelude.{◌≡◌};
    ghost use Rattle.pb_sim_play.specs.declared.fault.RecordFault.TheVariants as F;

    ghost from_gives = { λ _ e. e ≡ F.WriteFault };

    fn from(_fault: OutFault) -> RecordFault {
        RecordFault::WriteFault
    }
}
