//! The projection of a protocol: one endpoint program for all ranks and every N of its range.
#![tactic(auto)]

mod around;
mod block;
mod continues;
mod local;
mod numbers;
mod takers;
mod told;

pub use local::project;
pub use pb_core_language::Core;
pub use pb_local::Local;
pub use pb_text::NoMemory;
