//! The steps of the sequential run beside a log: what a collective does is looked for in the ranks' lists.
//!
//! `specs/Joined.antt` says what all ranks do in a collective, and which words they share.
#![tactic(auto)]

mod collectives;
mod combine;
mod setting;
mod shared;

pub use collectives::together;
pub use pb_core_language::{CoreLabel, Op};
pub use pb_judge_steps::{Difference, Lists};
pub use pb_text::NoMemory;
pub use setting::{Collective, Setting};
