//! The command `expand`: from the bytes of a file with subprotocols to the protocol file that it stands for.
//!
//! `specs/Expand` says what is answered.
#![tactic(auto)]

mod answer;
mod command;
mod refusals;

pub use answer::refusal_in;
pub use command::expand;
pub use pb_cli_status::{Refusal, Status};
