ghost use Rattle.std.specs.Prelude.{◌≡◌};
ghost use Rattle.pb_plain_run.specs.declared.fault.RunFault.TheVariants as faults;

use pb_text::NoMemory;
use thiserror::Error;

/// Why there is no run.
#[derive(Clone, Copy, Debug, PartialEq, Eq, Error)]
pub enum RunFault {
    /// The run comes to a choice of 2^64 branches or more.
    #[error("TooLarge")]
    TooLarge,
    /// Memory ran out.
    #[error("NoMemory")]
    NoMemory,
}

impl From<NoMemory> for RunFault {
    ghost from_gives = { λ _ fault. fault ≡ faults.NoMemory };

    fn from(_error: NoMemory) -> RunFault {
        RunFault::NoMemory
    }
}
