//! Tests of who takes part, what a rank finds first, pieces of a projection and how they are printed.
#![tactic(auto)]

#[cfg(test)]
mod local_tests;
#[cfg(test)]
mod part_firsts_tests;
#[cfg(test)]
mod part_takers_tests;
#[cfg(test)]
mod part_tests;
#[cfg(test)]
mod project_piece_tests;
#[cfg(test)]
mod trees;
