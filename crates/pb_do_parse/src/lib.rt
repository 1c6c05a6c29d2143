//! The reader of protocol files with subprotocols: exactly the grammar of `pb_do_grammar`, and the limits on what such a
//! file may hold.
//!
//! `specs/Parsed` says which answer is right, and `specs/Limits` which token passes which limit. As in `pb_parse`, one pass
//! over the tokens finds the first that passes a limit, and then the tokens up to it are read once, from left to right.
#![tactic(auto)]

mod blocks;
mod file;
mod limits;
mod lists;
mod simple;
mod verdict;

pub use limits::first_passed;
pub use pb_do_syntax::{CallBlock, CallStatement, CallTree, Sub};
pub use pb_parse::{LexError, ParseFault};
pub use verdict::read_calls;
