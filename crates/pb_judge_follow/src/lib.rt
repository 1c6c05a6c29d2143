//! Following the sequential run beside a log, one step at a time: definitions and laws.
//!
//! `specs/Follow.antt` says what each rank has left of its entries, and when what the run does fits it. `specs/Laws.antt`
//! has the laws: each way in which that can end tells the ruling.
#![tactic(auto)]

mod laws;

pub use laws::{breaks_rule, circle_rules, end_rules};
