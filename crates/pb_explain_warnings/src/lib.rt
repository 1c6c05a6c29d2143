//! What is lawful in a protocol and mostly a mistake: `tell_warnings` writes a warning for each, with a remedy.
//!
//! There are four: a range that is empty at every N, or from some N on; a role that no end names, where no collective has all
//! ranks; a `rec` that nothing continues, and a `foreach` whose items don't use its variable; an exchange in one role that is
//! written as a chain.
#![tactic(auto)]

mod chains;
mod ranges;
mod unused;
mod uses;
mod walk;

pub use pb_explain_source::{NoMemory, Page, Place};
pub use walk::tell_warnings;
