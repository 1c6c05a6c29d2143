//! A types file against the program of a protocol: the first fault, or what each label carries.
//!
//! `specs/Faults` says what is wrong, in the file's order, `Taken` which names a constant can't have, and `Carries` what a
//! label carries.
#![tactic(auto)]

mod constants;
mod counts;
mod fault;
mod labels;
mod ordered;
mod taken;
mod verdict;

pub use constants::MOST_CONSTANTS;
pub use counts::MOST_BYTES;
pub use fault::FitFault;
pub use pb_types::{Carried, Element, TypesFile};
pub use verdict::fit;
