//! Tests of renewing: each call of a store fails in turn, and any two, and all from one on; bodies of any bytes are kept and left.
#![tactic(auto)]

#[cfg(test)]
mod endings;
#[cfg(test)]
mod files;
#[cfg(test)]
mod merge_tests;
#[cfg(test)]
mod put_tests;
#[cfg(test)]
mod renew_tests;
#[cfg(test)]
mod store_tests;
