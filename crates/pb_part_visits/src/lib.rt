//! The ends of a foreach: what the ranks at them find, in which order, and the areas of these ranks.
#![tactic(auto)]

mod ends;
mod lins;
mod meet;
mod visit;

pub use ends::{meeting_area, passed_area};
pub use lins::{back, put};
pub use visit::{Finding, Visit, fresh_in, is_moving, is_same, moving_in, visits_in};
