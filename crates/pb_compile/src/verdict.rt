use pb_parse::LexError;
use pb_text::{Name, Place, Quantity};
use thiserror::Error;

/// Why a protocol file isn't accepted: its first fault, or the first rule that it breaks.
#[derive(Clone, Copy, Debug, Error)]
pub enum Verdict {
    /// The first lexical fault.
    #[error("Lex")]
    Lex(LexError),
    /// The first token that doesn't go on, or the place after the last byte where the tokens end too early.
    #[error("Unexpected")]
    Unexpected(Place),
    /// The brace that would be the 65th open one.
    #[error("TooDeep")]
    TooDeep(Place),
    /// The first token at which this count passes its limit.
    #[error("TooMany")]
    TooMany(Quantity, Place),
    /// The least rule that is broken, at its first place. For the rules 6 to 12 `n` is the least N that breaks it there, and
    /// `role` and `index` are the least rank where the rule speaks of one.
    #[error("Broken")]
    Broken {
        rule: u8,
        place: Place,
        n: Option<i64>,
        role: Option<Name>,
        index: Option<i64>,
    },
    /// The rules 1 to 5 are kept, and there are more than 4,096 breakpoints.
    #[error("TooManyCases")]
    TooManyCases,
    #[error("NoMemory")]
    NoMemory,
}
