//! The words that the program's kernels answer: those of a generator for each rank.
//!
//! A word has a number. [`Generators`] jumps to it, and goes on from there where the next word is asked for; [`word`] jumps to
//! each.
#![tactic(auto)]

mod generators;
mod jumped;
mod place;

pub use generators::Generators;
pub use jumped::word;
