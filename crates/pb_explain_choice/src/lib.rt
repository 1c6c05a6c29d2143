//! Why a choice breaks one of the rules 10 to 12 at a number N: `tell_choice_rule` writes the message.
//!
//! A `Seat` is one rank at one N. `firsts` finds what it may find first in a block, with the places of the statements.
#![tactic(auto)]

mod firsts;
mod found;
mod iterations;
mod rule;
mod scope;
mod seat;
mod tell;

pub use pb_explain_source::{NoMemory, Page, Place};
pub use rule::tell_choice_rule;
