//! Laws that join `run` and `judge`: a log that `run` writes is ruled whole or covered.
//!
//! `specs/` has `Laws` (the statements).
#![tactic(auto)]

mod laws;

pub use laws::{kept_logs_are_not_refused, logs_are_ruled};
