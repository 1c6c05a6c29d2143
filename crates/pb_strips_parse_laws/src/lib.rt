//! Laws on what the reader of files with strips reads: its numbers are small, and its flat file is the tree of a text, places
//! aside.
#![tactic(auto)]

mod laws;

pub use laws::{read_flat_is_readable, read_is_small};
