//! Laws on what the reader of files with subprotocols reads: its numbers are small, and where its calls are replaced, what
//! comes of them is the tree of a text, places aside.
#![tactic(auto)]

mod laws;

pub use laws::{read_inlined_is_readable, read_is_small};
