//! The commands that simulate: from the bytes of a C text and of a schedule to what is written of the simulation, and the
//! status that the program ends with.
#![tactic(auto)]

mod commands;
mod finish;
mod simulate;
mod sources;
mod stuck;

pub use commands::{replay, sim};
pub use pb_cli_status::{Refusal, Status};
pub use pb_cli_words::{Mode, Modes, Options, Shown};
pub use pb_ctree::CTree;
pub use pb_sched::Schedule;
pub use simulate::{replay_tree, simulate_tree};
pub use sources::{read_text, read_turns};
