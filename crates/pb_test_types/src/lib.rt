//! Tests of types files: what is read and what is refused, alone and beside a program.
#![tactic(auto)]

#[cfg(test)]
mod fit_tests;
#[cfg(test)]
mod read_tests;
