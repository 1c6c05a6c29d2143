use pb_cost_pieces::NoMemory;
use thiserror::Error;

/// Why two counts aren't joined.
#[derive(Clone, Copy, Debug, Error)]
pub enum CountFault {
    /// Their weights are more than 4,100,000 together.
    #[error("TooHeavy")]
    TooHeavy,
    /// Memory ran out.
    #[error("NoMemory")]
    NoMemory,
}

impl From<NoMemory> for CountFault {
    ghost use Rattle.std.specs.Prelude.{◌≡◌};
    ghost use Rattle.pb_cost_joins.specs.declared.fault.CountFault.TheVariants.{NoMemory};

    ghost from_gives = { λ _ e. e ≡ NoMemory };

    fn from(_error: NoMemory) -> CountFault {
        CountFault::NoMemory
    }
}
