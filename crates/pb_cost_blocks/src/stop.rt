use thiserror::Error;

/// Why a count isn't told.
#[derive(Clone, Copy, Debug, Error)]
pub enum Stop {
    /// The first statements of some block, or the first branches of some choice, have more than 4,096 pieces.
    #[error("TooManyPieces")]
    TooManyPieces,
    /// More is sent than by a file within the limits, or a foreach has other statements than messages and computes.
    #[error("Unfit")]
    Unfit,
    /// Memory ran out.
    #[error("NoMemory")]
    NoMemory,
}
