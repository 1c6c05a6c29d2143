//! Plays simulations without a log: makes the events of a seed one after the other, each eager, and keeps what was counted.
//!
//! `specs/` has `Counted` (what is counted of a run) and `Played` (events that were made).
#![tactic(auto)]

mod playing;

pub use pb_sim::{Counts, Sim};
pub use playing::{Stop, play};
