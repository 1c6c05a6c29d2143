//! Keywords and symbols as they are spelled.

ghost use Rattle.std.specs.Prelude.{◌≡◌, ◌<◌, length};
ghost use Rattle.pb_text.specs.Spellings.{key_spelling, keys, mark_spelling};

use crate::{Key, Mark};

impl Key {
    /// All keywords.
    #[tactic(auto, unfolding(crate::specs::Spellings::keys))]
    pub fn all() -> &'static [Key]
        ensures { result.now ≡ keys }
    {
        &[
            Key::Const,
            Key::Global,
            Key::Protocol,
            Key::Role,
            Key::From,
            Key::To,
            Key::Foreach,
            Key::Rec,
            Key::Continue,
            Key::Choice,
            Key::At,
            Key::Or,
            Key::Compute,
            Key::Barrier,
            Key::Broadcast,
            Key::Reduce,
            Key::Allreduce,
            Key::With,
            Key::Max,
            Key::Min,
            Key::Sum,
            Key::Int32,
            Key::Uint32,
            Key::Do,
        ]
    }

    /// The letters and digits of the keyword.
    pub fn spelling(self) -> &'static [u8]
        ensures { result.now ≡ key_spelling self }
    {
        match self {
            Key::Const => b"const",
            Key::Global => b"global",
            Key::Protocol => b"protocol",
            Key::Role => b"role",
            Key::From => b"from",
            Key::To => b"to",
            Key::Foreach => b"foreach",
            Key::Rec => b"rec",
            Key::Continue => b"continue",
            Key::Choice => b"choice",
            Key::At => b"at",
            Key::Or => b"or",
            Key::Compute => b"compute",
            Key::Barrier => b"barrier",
            Key::Broadcast => b"broadcast",
            Key::Reduce => b"reduce",
            Key::Allreduce => b"allreduce",
            Key::With => b"with",
            Key::Max => b"max",
            Key::Min => b"min",
            Key::Sum => b"sum",
            Key::Int32 => b"int32",
            Key::Uint32 => b"uint32",
            Key::Do => b"do",
        }
    }
}

impl Mark {
    /// The bytes of the symbol, one or two.
    pub fn spelling(self) -> &'static [u8]
        ensures spelled { result.now ≡ mark_spelling self }
        ensures some { 0 < length result.now }
    {
        match self {
            Mark::Dots => b"..",
            Mark::Equals => b"=",
            Mark::Semicolon => b";",
            Mark::LeftParen => b"(",
            Mark::RightParen => b")",
            Mark::LeftBracket => b"[",
            Mark::RightBracket => b"]",
            Mark::LeftBrace => b"{",
            Mark::RightBrace => b"}",
            Mark::Comma => b",",
            Mark::Colon => b":",
            Mark::Plus => b"+",
            Mark::Minus => b"-",
        }
    }
}
