//! Reads a program text: what is left of its bytes where they are erased is read as a plain text, its rows say what the labels carry,
//! and the text is taken where printing it again gives the very bytes. It takes time and memory linear in the text.
#![tactic(auto)]

mod calls;
mod erase;
mod frame;
mod line;
mod read;
mod rows;

pub use pb_typed_types::{Carried, Constant, Types};
pub use read::{ProgramFault, ProgramText, read_program};
