//! Laws on texts: a program is well made exactly where each line of its text keeps its rule.
#![tactic(auto)]

mod laws;

pub use laws::{bodies_are_lines, kept_where_made, made_is_kept, made_where_kept, one_spelling};
