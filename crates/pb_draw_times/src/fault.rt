ghost use Rattle.std.specs.Prelude.{◌≡◌};
ghost use Rattle.pb_draw_times.specs.declared.fault.TimesFault.TheVariants as faults;

use pb_text::NoMemory;
use thiserror::Error;

/// Why actions have no times.
#[derive(Clone, Copy, Debug, Error)]
pub enum TimesFault {
    /// No order was found in which each action comes behind those that it waits for.
    #[error("Circle")]
    Circle,
    /// Memory ran out.
    #[error("NoMemory")]
    NoMemory,
}

impl From<NoMemory> for TimesFault {
    ghost from_gives = { λ _ fault. fault ≡ faults.NoMemory };

    fn from(_error: NoMemory) -> TimesFault {
        TimesFault::NoMemory
    }
}
