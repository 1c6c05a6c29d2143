ghost use Rattle.std.specs.Prelude.{◌≡◌};
ghost use Rattle.pb_lex.specs.declared.error.LexFault.TheVariants.{NoMemory};

use crate::NoMemory;
use pb_text::Place;
use std::alloc::AllocFailed;
use thiserror::Error;

/// Why bytes are no text, and where. The first fault in text order is named.
#[derive(Clone, Copy, Debug, Error)]
pub enum LexError {
    /// A byte that begins no token.
    #[error("BadByte")]
    BadByte(Place),
    /// A `/*` without a `*/` behind it, at its start.
    #[error("OpenComment")]
    OpenComment(Place),
    /// A number above 2,000,000,000, at its start.
    #[error("NumberTooLarge")]
    NumberTooLarge(Place),
    /// A name of more than 64 bytes, at its start.
    #[error("NameTooLong")]
    NameTooLong(Place),
}

/// Why there are no tokens.
#[derive(Clone, Copy, Debug, Error)]
pub enum LexFault {
    /// The bytes are no text.
    #[error("Bad")]
    Bad(LexError),
    /// Memory ran out.
    #[error("NoMemory")]
    NoMemory,
}

impl<T: Drop> From<AllocFailed<T>> for LexFault {
    ghost from_gives = { λ _ fault. fault ≡ NoMemory };

    fn from(_error: AllocFailed<T>) -> LexFault {
        LexFault::NoMemory
    }
}
