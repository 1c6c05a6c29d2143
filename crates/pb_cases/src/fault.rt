use pb_text::NoMemory;
use thiserror::Error;

/// Why a range wasn't cut into cases.
#[derive(Clone, Copy, Debug, PartialEq, Eq, Error)]
pub enum CaseFault {
    /// There are more than 4,096 breakpoints.
    #[error("TooManyCases")]
    TooManyCases,
    /// Memory ran out.
    #[error("NoMemory")]
    NoMemory,
}

impl From<NoMemory> for CaseFault {
    ghost use Rattle.std.specs.Prelude.{◌≡◌};
    ghost use Rattle.pb_cases.specs.declared.fault.CaseFault.TheVariants.{NoMemory as OutOfMemory};

    ghost from_gives = { λ _ fault. fault ≡ OutOfMemory };

    fn from(_fault: NoMemory) -> CaseFault {
        CaseFault::NoMemory
    }
}
