ghost use Rattle.std.specs.Prelude.{◌≡◌};
ghost use Rattle.pb_types.specs.Read.{lex_fault};

use pb_lex::{LexError, LexFault};
use pb_text::Place;
use thiserror::Error;

/// Why bytes are no types file. A lexical fault comes before all others.
#[derive(Clone, Copy, Debug, Error)]
pub enum TypesFault {
    /// The first lexical fault of the bytes.
    #[error("Lex")]
    Lex(LexError),
    /// The first token such that no types file begins with the tokens up to it, or the place behind the last byte where
    /// the tokens end too early.
    #[error("Unexpected")]
    Unexpected(Place),
    /// The same, where a type would go on and the token is a word.
    #[error("UnknownType")]
    UnknownType(Place),
    /// Memory ran out.
    #[error("NoMemory")]
    NoMemory,
}

impl From<LexFault> for TypesFault {
    ghost from_gives = { λ fault e. e ≡ lex_fault fault };

    fn from(fault: LexFault) -> TypesFault {
        match fault {
            LexFault::Bad(error) => TypesFault::Lex(error),
            LexFault::NoMemory => TypesFault::NoMemory,
        }
    }
}
