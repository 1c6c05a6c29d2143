//! Tests of one crate against another. The rules 6 to 8, which are decided for every N at once, are compared with what the slow
//! programs list at each N of a small range; and of the slow programs, what may happen first in flat protocols, breaches of the
//! rules 6 to 12, and sequential runs are as written down by hand.
#![tactic(auto)]

#[cfg(test)]
mod breach_tests;
#[cfg(test)]
mod cores;
#[cfg(test)]
mod flat_tests;
#[cfg(test)]
mod index_tests;
#[cfg(test)]
mod run_tests;
#[cfg(test)]
mod slow;
