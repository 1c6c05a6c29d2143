ghost use Rattle.std.specs.Prelude.{◌≡◌};
ghost use Rattle.pb_sched.specs.declared.fault.ScheduleFault.TheVariants as faults;

use pb_text::NoMemory;
use thiserror::Error;

/// Why bytes are no schedule. Lines are counted from 1.
#[derive(Clone, Copy, Debug, PartialEq, Eq, Error)]
pub enum ScheduleFault {
    /// The first line that isn't in the form of a schedule, or a missing first or second line.
    #[error("BadLine")]
    BadLine(u32),
    /// The line of event 1,000,001.
    #[error("TooMany")]
    TooMany(u32),
    /// Memory ran out.
    #[error("NoMemory")]
    NoMemory,
}

impl From<NoMemory> for ScheduleFault {
    ghost from_gives = { λ _ fault. fault ≡ faults.NoMemory };

    fn from(_error: NoMemory) -> ScheduleFault {
        ScheduleFault::NoMemory
    }
}
