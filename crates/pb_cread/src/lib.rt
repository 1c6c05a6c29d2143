//! Reads a C text: exactly the spellings of C trees with the bodies of their kernels, line by line. It takes time and
//! memory linear in the text, and never recurses.
#![tactic(auto)]

mod ending;
mod fault;
mod frame;
mod lines;
mod read;
mod statements;

pub use fault::{CText, TextFault};
pub use pb_ctree::{Bodies, CTree};
pub use pb_text::Place;
pub use read::read_c;
