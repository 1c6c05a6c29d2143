//! Slow, plain programs that compute where a core breaks rules at one N. They follow the definitions step by step, and fast code
//! is tested against them.
#![tactic(auto)]

mod breach;
mod deserted;
mod end_rule;
mod every;
mod roles;
mod round;
mod tell_rule;
mod told;
mod within;

pub use breach::{Breach, add_ends, add_marks, add_ranked};
pub use deserted::add_deserted;
pub use end_rule::{EndRule, add_breaks};
pub use every::breaches;
pub use pb_core_language::{Core, Place};
pub use pb_plain::{Asked, Branches, Flat, Held, Mark, Outcome, Seat};
pub use pb_text::NoMemory;
pub use roles::empty_roles;
pub use round::holds_again;
pub use tell_rule::TellRule;
pub use told::misfits;
pub use within::Within;
