//! The walk over the blocks of a core beside a log.
//!
//! One statement after the other is looked for in the ranks' lists, and only the ranks that take part in it are touched. A
//! round of a loop that uses no entry repeats for ever. `specs/Steps.antt` says what the walk over each part is to have done.
#![tactic(auto)]

mod choice;
mod flow;
mod joint;
mod numbers;
mod ranks;
mod simple;
mod site;
mod walk;

pub use site::Site;
pub use walk::block;
