//! The command `run`: a protocol file is compiled, and its tree is simulated.
//!
//! `specs/` has `Run` (what is answered).
#![tactic(auto)]

mod running;

pub use pb_cli_status::Status;
pub use pb_cli_words::Options;
pub use running::run;
