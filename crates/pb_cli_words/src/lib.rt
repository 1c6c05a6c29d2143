//! The words after the program's name, and what they ask for.
//!
//! `specs/` has `Said` (options with their values, and other words), `Numbers` (numbers as words) and `Request` (the forms); `Reader` has the command of `clap`.
#![tactic(auto)]

mod command;
mod given;
mod number;
mod options;
mod reader;

pub use command::{Command, command_in};
pub use options::{Modes, Options, Shown};
pub use pb_text::{Mode, NoMemory};
