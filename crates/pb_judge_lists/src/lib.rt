//! The entries of a log, rank by rank: which one comes next, and what is left over.
//!
//! `specs/Places.antt` says where each rank stands in the log, and what it has left. A step of a rank takes constant time.
#![tactic(auto)]

mod lists;
mod places;

pub use lists::Lists;
pub use pb_text::{Action, NoMemory};
