//! The tokens of a protocol file: words, keywords, numbers and symbols, with blanks and comments between them.
#![tactic(auto)]

mod comment;
mod error;
mod gap;
mod law;
mod lexeme;
mod mark;
mod number;
mod place;
mod text;
mod word;

pub use error::{LexError, LexFault};
pub use law::one_reading;
pub use pb_text::{Key, Mark, Name, NoMemory, Place, Token, TokenKind};
pub use place::end_place;
pub use text::lex;
