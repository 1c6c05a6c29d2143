use pb_text::{Action, NoMemory};
use thiserror::Error;

/// What one step of a rank was.
#[derive(Drop)]
pub enum StepDone {
    /// A step that only the rank itself notices.
    Silent,
    Did(Action),
}

/// Why a rank made no step.
#[derive(Clone, Copy, Debug, PartialEq, Eq, Error)]
pub enum StepFault {
    /// The rank has no step, or isn't there.
    #[error("NotReady")]
    NotReady,
    /// After the send more than 16,777,216 words would be in flight.
    #[error("Full")]
    Full,
    #[error("NoMemory")]
    NoMemory,
}

impl From<NoMemory> for StepFault {
    ghost use Rattle.std.specs.Prelude.{◌≡◌};
    ghost use Rattle.pb_sim.specs.declared.outcomes.StepFault.TheVariants as S;

    ghost from_gives = { λ _ e. e ≡ S.NoMemory };

    fn from(_error: NoMemory) -> StepFault {
        StepFault::NoMemory
    }
}

/// Why a tree can't be simulated for an N.
#[derive(Clone, Copy, Debug, Error)]
pub enum SimFault {
    /// N isn't in the tree's range.
    #[error("OutOfRange")]
    OutOfRange,
    /// There would be more than 1,024 ranks.
    #[error("TooManyRanks")]
    TooManyRanks,
    #[error("NoMemory")]
    NoMemory,
}

impl From<NoMemory> for SimFault {
    ghost use Rattle.std.specs.Prelude.{◌≡◌};
    ghost use Rattle.pb_sim.specs.declared.outcomes.SimFault.TheVariants as F;

    ghost from_gives = { λ _ e. e ≡ F.NoMemory };

    fn from(_error: NoMemory) -> SimFault {
        SimFault::NoMemory
    }
}
