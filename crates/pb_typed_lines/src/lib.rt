//! Prints the lines of program texts that plain texts don't have. A line is given as its bits; each bit is a word, a name, a number
//! or what a label carries.
#![tactic(auto)]

mod bits;
mod data;
mod line;

pub use bits::{Bit, Side};
pub use data::carried_at;
pub use line::push_line;
pub use pb_text::NoMemory;
pub use pb_typed_types::{Carried, Constant, Element, Types};
