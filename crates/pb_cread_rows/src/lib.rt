//! Reads the lines of the tables of a C text: protocol, range, roles, labels and kernels. A line is guessed, spelled once
//! more, and compared: so what is read is spelled so, and what is spelled so and keeps its rule is read.
#![tactic(auto)]

mod cursor;
mod guess;
mod names;
mod rows;
mod rules;
mod sums;

pub use rows::{read_kernel, read_label, read_protocol, read_range, read_role};
pub use rules::has_size;
