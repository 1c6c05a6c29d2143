//! The commands on a protocol file: from its bytes, and maybe those of a kernel file, to what is written, and the status that the
//! program ends with.
//!
//! `specs/` has `Files` (what is answered of a protocol file) and `Kernels` (of one with a kernel file).
#![tactic(auto)]

mod answer;
mod file;
mod kernels;
mod meaning;
mod saying;
mod telling;
mod tree;

pub use answer::{Answer, Wanted};
pub use file::bytes_in;
pub use meaning::core_in;
pub use pb_cli_status::{Refusal, Status};
pub use pb_compile::{CTree, Core};
pub use saying::say;
pub use telling::{tell, tell_merged};
pub use tree::tree_in;
