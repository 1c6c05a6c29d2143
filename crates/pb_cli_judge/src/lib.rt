//! The command `judge`: from the bytes of a protocol file and of a log to the ruling on it, and the status that the program ends
//! with.
//!
//! `specs/` has `Judge` (what is answered).
#![tactic(auto)]

mod answer;
mod command;
mod log;
mod ruled;
mod start;

pub use answer::line_in;
pub use command::judge;
pub use pb_cli_status::{Refusal, Status};
