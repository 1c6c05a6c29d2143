use pb_text::{NoMemory, Place, Quantity};
use std::alloc::AllocFailed;

/// Why inlining stops.
#[derive(Clone, Copy)]
pub enum Halt {
    /// This limit is passed, by this statement of the protocol or by what comes of it.
    TooMany(Quantity, Place),
    NoMemory,
}

impl<T: Drop> From<AllocFailed<T>> for Halt {
    ghost use Rattle.std.specs.Prelude.{◌≡◌};
    ghost use Rattle.pb_do_inline.specs.declared.halt.Halt.TheVariants.{NoMemory};

    ghost from_gives = { λ _ e. e ≡ NoMemory };

    fn from(_: AllocFailed<T>) -> Self {
        Halt::NoMemory
    }
}

impl From<NoMemory> for Halt {
    ghost use Rattle.std.specs.Prelude.{◌≡◌};
    ghost use Rattle.pb_do_inline.specs.declared.halt.Halt.TheVariants.{NoMemory};

    ghost from_gives = { λ _ e. e ≡ NoMemory };

    fn from(_: NoMemory) -> Self {
        Halt::NoMemory
    }
}
