//! Walking over the statements of a protocol beside a log: definitions and laws.
//!
//! `specs/Walks.antt` says how a walk over a statement or a block can end, and what that means for the run. `specs/Laws.antt`
//! has the laws: what is walked one behind the other, in a choice or in a loop, and what the end of the whole walk tells.
#![tactic(auto)]

mod flow;
mod laws;

pub use flow::Flow;
pub use laws::{
    choices_are_walked, loops_are_walked, runs_are_ruled, steps_are_walked, walks_are_ruled,
};
