//! Laws on program texts: each call of MPI keeps its place, its rank, its tag and its operation, and both ends of a label agree.
#![tactic(auto)]

mod laws;

pub use laws::{calls_stay, ends_agree};
