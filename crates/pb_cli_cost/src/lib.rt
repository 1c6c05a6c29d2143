//! The command `cost`: from the bytes of a protocol file to the lines that tell how much the protocol sends, and the status that
//! the program ends with.
//!
//! `specs/` has `Lines` (the lines of a cost) and `Cost` (what is answered).
#![tactic(auto)]

mod answer;
mod command;
mod lines;

pub use answer::lines_in;
pub use command::cost;
pub use pb_cli_status::{Refusal, Status};
