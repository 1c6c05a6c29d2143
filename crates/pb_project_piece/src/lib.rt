//! The projection of a statement that is no loop, no continue and no choice: of messages and computes, of a foreach with its
//! segments, and of collectives.
#![tactic(auto)]

mod collective;
mod ends;
mod fixed;
mod foreach;
mod item;
mod offsets;
mod piece;
mod put;
mod reach;
mod seen;
mod segment;
mod setting;
mod somebody;

pub use ends::{guard_at, peer_of};
pub use pb_text::NoMemory;
pub use piece::put_piece;
pub use put::{put_one, when};
pub use setting::Setting;
pub use somebody::is_somebody;
