//! The reader of protocol files with strips: exactly the grammar of `pb_strips_grammar`, and the limits on what such a file
//! may hold.
//!
//! `specs/Parsed` says which answer is right. The keyword `columns` is put in the place of the word first, as the `Tokens` of
//! the grammar say. Then, as in `pb_do_parse`, whose limits hold here too, one pass over the tokens finds the first that
//! passes a limit, and the tokens up to it are read once, from left to right.
#![tactic(auto)]

mod blocks;
mod ends;
mod file;
mod items;
mod keywords;
mod roles;
mod simple;
mod verdict;

pub use pb_parse::{LexError, ParseFault};
pub use pb_strips_syntax::{Col, StripBlock, StripEnd, StripRole, StripStatement, StripTree};
pub use verdict::read_strips;
