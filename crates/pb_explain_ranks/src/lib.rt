//! Why a file breaks one of the rules 6 to 9 at a number N: `tell_rank_rule` writes the message.
//!
//! A `Setting` is a file at one N. It has the values of lins, the indices of roles and the numbers of ranks.
#![tactic(auto)]

mod empty;
mod ends;
mod roles;
mod rounds;
mod rule;
mod same;
mod setting;

pub use pb_explain_source::{NoMemory, Page, Place};
pub use rule::tell_rank_rule;
pub use setting::{Bound, Setting, Span, say_rank};
