//! What a text begins with: a fixed text, or a number in decimal.
//!
//! Each call looks at the front of a text and gives the bytes behind what it read. `specs/Fronts.antt` says what is read.
#![tactic(auto)]

mod front;
mod numbers;

pub use front::strip;
pub use numbers::number;
