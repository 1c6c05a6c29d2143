//! Why words are in no form: `tell_usage` writes the word that doesn't fit and why, and then the forms.
//!
//! `read_words` reads words leniently, so that the command and its files are known of words in a form, too.
#![tactic(auto)]

mod command;
mod numbers;
mod options;
mod reading;
mod usage;

pub use command::Verb;
pub use pb_explain_source::{NoMemory, Page, Part};
pub use reading::{Reading, read_words};
pub use usage::{tell_usage, tell_version};
