use pb_text::{NoMemory, Place};
use thiserror::Error;

/// Why a file has no core.
#[derive(Clone, Copy, Debug, Error)]
pub enum LowerFault {
    /// The least of the rules 1 to 5 that is broken, and the first place in the file at which it is.
    #[error("Broken")]
    Broken { rule: u8, place: Place },
    /// Memory ran out.
    #[error("NoMemory")]
    NoMemory,
}

impl From<NoMemory> for LowerFault {
    ghost use Rattle.std.specs.Prelude.{◌≡◌};
    ghost use Rattle.pb_core_language.specs.declared.fault.LowerFault.TheVariants.{NoMemory};

    ghost from_gives = { λ _ e. e ≡ NoMemory };

    fn from(_error: NoMemory) -> LowerFault {
        LowerFault::NoMemory
    }
}
