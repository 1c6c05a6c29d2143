//! The command `demo`: the counts of a run of a protocol of so many statements, which the program makes, prints, compiles and
//! simulates itself.
//!
//! `specs/` has `Demo` (what is answered).
#![tactic(auto)]

mod command;
mod protocol;
mod run;
mod summary;

pub use command::demo;
pub use pb_cli_status::Status;
