//! The compiler: from the bytes of a protocol file to the verdict on it, to the C tree of an accepted one, and to its text.
//!
//! The passes in order, each with its crate and what it hands on:
//! - `pb_lex`, called by `pb_parse`: bytes to tokens, or the first lexical fault;
//! - `pb_parse`: tokens to the tree, or the first token at fault;
//! - `pb_core` (`lower`, over `pb_core_file_rules`): the tree to the core, or the first of the rules 1 to 5 that it breaks;
//! - `pb_rules` (`check_index`): at most 4,096 breakpoints, and the rules 6 to 8, for every N of the range;
//! - `pb_choice` (`check_flow`, over the rooms of `pb_part`): the rules 9 to 12;
//! - `pb_project` (`project`): the core to the endpoint program, one for all ranks and every N;
//! - `pb_ctree` (`emit`): the endpoint program to the C tree, with the numbers of its ranks;
//! - `pb_cprint` (`print_c`): the C tree and the bodies of its kernels to the text.
//!
//! `accept` is the first five, `compile` the first seven, `generate` all of them.
#![tactic(auto)]

mod accepting;
mod compiling;
mod printing;
mod verdict;

pub use accepting::accept;
pub use compiling::{Compiled, compile};
pub use pb_core_language::Core;
pub use pb_ctree::CTree;
pub use pb_parse::LexError;
pub use pb_text::{Name, Place, Quantity};
pub use printing::{generate, lay_out, text_of};
pub use verdict::Verdict;
