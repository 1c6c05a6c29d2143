//! Which receive takes which send, when each action is done, and the longest chain.
//!
//! An action is known by its place in the log, counted from 0. `timed` gives everything at once, found by going along the
//! log, and checked afterwards. `specs/` has `Pairs` (which two actions are one message) and `Ascents` (which times ascend).
#![tactic(auto)]

mod chain;
mod checked;
mod counts;
mod fault;
mod links;
mod mates;
mod ordinals;
mod sorting;
mod times;
mod tops;

pub use chain::longest_chain;
pub use checked::are_sound;
pub use counts::{Count, counted, message_chain};
pub use fault::TimesFault;
pub use links::{Links, link_at, linked};
pub use pb_draw_log::{Deed, Entry, NoMemory, Step};
pub use times::{Times, timed};
