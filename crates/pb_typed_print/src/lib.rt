//! Prints a tree, what its labels carry, and the bodies of its functions as the one program text that they spell.
#![tactic(auto)]

mod choices;
mod main_text;
mod print;
mod statements;

pub use pb_ctree::{Bodies, CTree};
pub use pb_text::NoMemory;
pub use pb_typed_types::Types;
pub use print::print_program;
