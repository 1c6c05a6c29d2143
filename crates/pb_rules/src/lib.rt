//! Decides the rules 6 to 8 of a protocol for every N of its range at once: each role has an index, each index lies in its
//! role's range, and the sender and the receiver of a message differ.
#![tactic(auto)]

mod cuts;
mod ends;
mod fault;
mod found;
mod index;
mod line;
mod offsets;
mod span;
mod trap;
mod walk;

pub use fault::{At, RuleFault};
pub use index::check_index;
pub use pb_core_language::{Core, Place};
