//! The first N and index at which two guards hold of one rank and two lins differ there.
//!
//! The range of N, the guards' ends and the difference are put into one system of constraints on differences, between
//! 0, N and the index; its least solution is the answer. Nothing here takes memory.
#![tactic(auto)]

mod apart;
mod facts;
mod term;

pub use apart::{first_apart, first_apart_other};
