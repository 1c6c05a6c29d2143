//! How much a protocol without loops sends at least and at most, for every N of its range.
//!
//! [`cost_of`] gives four counts: the least and the most messages, and the least and the most words in them, over the
//! sequential runs under all answers. Each is a list of lines `a * N + b`, the fewest that there are.
#![tactic(auto)]

mod cost;
mod laws;
mod loops;
mod piece;
mod range;

pub use cost::{Cost, CostFault, cost_of};
pub use laws::one_list_of_pieces;
pub use pb_core_language::{Core, Place};
pub use piece::Piece;
