ghost use Rattle.std.specs.Prelude.{◌≡◌};
ghost use Rattle.pb_judge_log.specs.declared.fault.LogFault.TheVariants as faults;

use pb_text::NoMemory;
use thiserror::Error;

/// Why bytes are no log. Lines are counted from 1, up to 4,294,967,295.
#[derive(Clone, Copy, Debug, Error)]
pub enum LogFault {
    /// The first line that isn't in the form of a log.
    #[error("BadLine")]
    BadLine(u32),
    /// Memory ran out.
    #[error("NoMemory")]
    NoMemory,
}

impl From<NoMemory> for LogFault {
    ghost from_gives = { λ _ fault. fault ≡ faults.NoMemory };

    fn from(_error: NoMemory) -> LogFault {
        LogFault::NoMemory
    }
}
