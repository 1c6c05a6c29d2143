//! Laws on texts: a program with few statements and few braces keeps the limits of a text.
#![tactic(auto)]

mod laws;

pub use laws::{small_is_read, small_keeps_limits};
