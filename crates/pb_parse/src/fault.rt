ghost use Rattle.std.specs.Prelude.{◌≡◌};
ghost use Rattle.pb_parse.specs.Parsed.{lex_fault};

use pb_lex::{LexError, LexFault};
use pb_text::{Place, Quantity};
use thiserror::Error;

/// Why there is no tree. A lexical fault comes before all others. Then the earliest token counts, and at one token the
/// earlier variant.
#[derive(Clone, Copy, Debug, Error)]
pub enum ParseFault {
    /// The first lexical fault of the bytes.
    #[error("Lex")]
    Lex(LexError),
    /// The first token such that no file begins with the tokens up to it, or the place behind the last byte where the
    /// tokens end too early.
    #[error("Unexpected")]
    Unexpected(Place),
    /// A `{` that would be the 65th open one.
    #[error("TooDeep")]
    TooDeep(Place),
    /// The `role` of the 65th role, the first token of statement 4,001, the `or` before branch 65, a number above
    /// 100,000 as the low end of the constant or in a lin, a number above 1,024 as a payload's count.
    #[error("TooMany")]
    TooMany(Quantity, Place),
    /// Memory ran out.
    #[error("NoMemory")]
    NoMemory,
}

impl From<LexFault> for ParseFault {
    ghost from_gives = { λ fault e. e ≡ lex_fault fault };

    fn from(fault: LexFault) -> ParseFault {
        match fault {
            LexFault::Bad(error) => ParseFault::Lex(error),
            LexFault::NoMemory => ParseFault::NoMemory,
        }
    }
}
