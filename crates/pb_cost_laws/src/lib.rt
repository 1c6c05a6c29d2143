//! Laws: what the sequential runs of a protocol without loops send at least, and at most.
#![tactic(auto)]

mod laws;

pub use laws::{block_sends, straight_sends};
