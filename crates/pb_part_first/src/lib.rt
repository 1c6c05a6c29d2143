//! Where a list of areas first holds: at the least N of a range, then of the least role, then of the least index.
#![tactic(auto)]

mod first;

pub use first::first_of;
