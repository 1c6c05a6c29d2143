//! The command `strips`: from the bytes of a file with strips to the protocol file that it stands for.
//!
//! `specs/Strips` says what is answered.
#![tactic(auto)]

mod answer;
mod command;
mod refusals;

pub use answer::refusal_in;
pub use command::strips;
pub use pb_cli_status::{Refusal, Status};
