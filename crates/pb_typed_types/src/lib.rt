//! What the labels of a program text carry in the place of words.
#![tactic(auto)]

mod types;

pub use pb_types::{Carried, Element};
pub use types::{Constant, Form, Types};
