//! Plays simulations: makes the events of a seed or of a schedule one after the other, and writes the log, or the schedule
//! that was made.
#![tactic(auto)]

mod ending;
mod fault;
mod finish;
mod log;
mod plan;
mod play;
mod record;
mod simulate;
mod stop;

pub use ending::Ending;
pub use pb_sim::{Cause, Sim};
pub use simulate::{simulate_by_schedule, simulate_by_seed};
