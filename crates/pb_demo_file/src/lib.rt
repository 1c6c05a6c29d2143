//! The protocol file of so many statements that the program shows itself on.
//!
//! `specs/` has `File` (its tree) and `Laws`.
#![tactic(auto)]

mod file;
mod law;

pub use file::demo_file;
pub use law::runs_from_two;
pub use pb_syntax::{FileTree, NoMemory};
