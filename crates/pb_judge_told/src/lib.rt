//! What the ranks of a printed text do, the lines of a log may tell: the ranks that they name are there, and so are their labels
//! and kernels, and their numbers fit 32 bits.
//!
//! `specs/` has `Told` (the statement).
#![tactic(auto)]

mod told;

pub use told::runs_are_told;
