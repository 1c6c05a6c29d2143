//! The parser of protocol files: exactly the grammar of `pb_syntax`, and the limits on what a file may hold.
//!
//! `specs/Parsed` says which answer is right, and `specs/Limits` which token passes which limit. One pass over the tokens
//! finds the first that passes a limit. Then the tokens up to it are read once, from left to right, one method for each
//! form, so a recursion never goes below 65 open braces. The forms in which no block stands can be read by `Cursor` alone.
#![tactic(auto)]

ghost use Rattle.pb_parse.specs.Parsed.{ReadsBack};

mod blocks;
mod cursor;
mod ends;
mod fault;
mod file;
mod limits;
mod parts;
mod simple;
mod verdict;

pub use cursor::{Cursor, Numeral, Stop};
pub use fault::ParseFault;
pub use parts::Top;
pub use pb_lex::LexError;
pub use verdict::parse;

/// The tree that a text of a tree is parsed to, such as what `print_file` wrote, is that tree, places aside.
pub fn reads_back()
    ensures { ReadsBack }
{}
