use pb_text::{NoMemory, Place};
use std::alloc::AllocFailed;

/// Why a walk stops.
#[derive(Clone, Copy)]
pub enum Stop {
    /// What comes from this place is one too many.
    TooMany(Place),
    /// The name of a column would have more than 64 bytes.
    Unnamed,
    NoMemory,
}

impl<T: Drop> From<AllocFailed<T>> for Stop {
    ghost use Rattle.std.specs.Prelude.{◌≡◌};
    ghost use Rattle.pb_strips_flatten.specs.declared.stop.Stop.TheVariants.{NoMemory};

    ghost from_gives = { λ _ e. e ≡ NoMemory };

    fn from(_: AllocFailed<T>) -> Self {
        Stop::NoMemory
    }
}

impl From<NoMemory> for Stop {
    ghost use Rattle.std.specs.Prelude.{◌≡◌};
    ghost use Rattle.pb_strips_flatten.specs.declared.stop.Stop.TheVariants.{NoMemory};

    ghost from_gives = { λ _ e. e ≡ NoMemory };

    fn from(_: NoMemory) -> Self {
        Stop::NoMemory
    }
}
