//! Laws on the flat protocol of a core: which rank an end is at, who takes part and what a rank finds first one statement
//! at a time, and a foreach as the list of those that stop at it.
#![tactic(auto)]

mod laws;

pub use laws::{
    breaches_add, each_is_met, each_stops, outcomes_add, ranks_are_seats, sources_are, takers_add,
    tests_are,
};
