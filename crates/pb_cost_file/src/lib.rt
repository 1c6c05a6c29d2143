//! Law on accepted files: how much they send can be counted.
#![tactic(auto)]

mod laws;

pub use laws::file_is_countable;
