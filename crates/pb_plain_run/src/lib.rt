//! The slow, plain program that computes the sequential run of a flat protocol under given answers, and laws of such runs.
#![tactic(auto)]

mod action;
mod answers;
mod collectives;
mod combine;
mod doing;
mod fault;
mod laws;
mod sequence;
mod setting;
mod steps;
mod wide;

pub use action::{FullAction, RankAction};
pub use answers::Answers;
pub use fault::RunFault;
pub use laws::blocks_are_passed;
pub use pb_core_language::{CoreLabel, Op};
pub use pb_plain::{Branches, Collective, Flat};
pub use pb_text::{NoMemory, Words};
pub use sequence::{Sequence, sequential_run};
pub use setting::Setting;
