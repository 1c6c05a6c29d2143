//! What the grammar says of the tree of a file with subprotocols, and the law of its runs.
#![tactic(auto)]

mod laws;

pub use laws::{files_are_made, files_run_as_one};
