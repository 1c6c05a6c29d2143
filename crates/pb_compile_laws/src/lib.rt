//! Laws on what an accepted file means: its names, payloads, kernels and roles are as a text wants them, it is small, few
//! messages are written in it, and its rules on scopes and ends are those of its core.
#![tactic(auto)]

mod laws;

pub use laws::{file_has_few_messages, file_is_proper, file_is_small, file_is_tabled};
