//! What a verdict of the compiler is to the program: the refusal that tells it.
#![tactic(auto)]

ghost use Rattle.std.specs.Prelude.{◌≡◌};
ghost use Rattle.pb_cli_verdict.specs.Refusals.{error_refusal, refusal_of, seat};

pub use pb_cli_status::{Name, Quantity, Refusal};
pub use pb_compile::{LexError, Verdict};

/// The refusal that tells a verdict. Takes no memory.
pub fn refusal_of(verdict: Verdict) -> Refusal
    ensures { result ≡ refusal_of verdict }
{
    match verdict {
        Verdict::Lex(error) => error_refusal(error),
        Verdict::Unexpected(place) => Refusal::Syntax(place),
        Verdict::TooDeep(place) => Refusal::Limit(Quantity::Nesting, place),
        Verdict::TooMany(quantity, place) => Refusal::Limit(quantity, place),
        Verdict::Broken {
            rule,
            place,
            n,
            role,
            index,
        } => Refusal::Broken {
            rule,
            place,
            n,
            at: seat(role, index),
        },
        Verdict::TooManyCases => Refusal::Breakpoints,
        Verdict::NoMemory => Refusal::NoMemory,
    }
}

/// The refusal that tells a lexical error. Takes no memory.
pub fn error_refusal(error: LexError) -> Refusal
    ensures { result ≡ error_refusal error }
{
    match error {
        LexError::BadByte(place) => Refusal::Syntax(place),
        LexError::OpenComment(place) => Refusal::Syntax(place),
        LexError::NumberTooLarge(place) => Refusal::Limit(Quantity::NumberSize, place),
        LexError::NameTooLong(place) => Refusal::Limit(Quantity::NameLength, place),
    }
}

/// A rank, where its role and its index are told.
fn seat(role: Option<Name>, index: Option<i64>) -> Option<(Name, i64)>
    ensures { result ≡ seat role index }
{
    let role = role?;
    let index = index?;
    Some((role, index))
}
