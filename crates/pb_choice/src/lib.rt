//! Decides the rules 9 to 12 of a protocol for every N of its range at once: each loop that comes round has somebody in it,
//! and each rank that is told of a choice learns which branch was chosen from what it receives first.
#![tactic(auto)]

mod areas;
mod branch;
mod branches;
mod empty;
mod flow;
mod found;
mod least;
mod lone;
mod past;
mod round;
mod rule;
mod setting;
mod settled;
mod split;
mod told;
mod walk;

pub use flow::check_flow;
pub use pb_core_language::Core;
pub use pb_rules::{At, RuleFault};
