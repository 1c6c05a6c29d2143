//! What the ruling on a log is, and what it tells: definitions and laws.
//!
//! `specs/Ruling.antt` says which ruling a log has, beside all that the sequential run does under the answers that the log
//! itself shows. `specs/Laws.antt` has the laws: a log has one ruling at most, and it is whole or covered exactly where some
//! steps of the run cover the log.
#![tactic(auto)]

mod laws;
mod ruling;

pub use laws::{one_ruling, ruling_means};
pub use ruling::Ruling;
