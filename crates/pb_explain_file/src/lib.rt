//! Why a file breaks one of the rules 1 to 5: `tell_file_rule` writes the message.
#![tactic(auto)]

mod bounds;
mod continues;
mod endings;
mod labels;
mod names;
mod rule;
mod words;

pub use pb_explain_source::{NoMemory, Page, Place};
pub use rule::tell_file_rule;
