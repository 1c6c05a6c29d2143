//! What is drawn of a log, and where.
//!
//! `laid_out` gives each event that is drawn its row, which is its rank's, and its column, which is that of its time, with the
//! messages among the events, the bands of the collectives and the longest chain. `summed` says how much is sent. What is
//! claimed of rows, columns and messages is that of `pb_draw_times`, of the events that are drawn.
#![tactic(auto)]

mod bands;
mod chain;
mod cut;
mod endings;
mod layout;
mod numbers;
mod sums;

pub use bands::Band;
pub use chain::Link;
pub use cut::{Chosen, Cut, choose};
pub use endings::{ending, stuck_rank};
pub use layout::{Layout, laid_out};
pub use numbers::narrow;
pub use pb_draw_times::{Deed, Entry, NoMemory, Step, Times, TimesFault};
pub use sums::{Sum, Sums, summed};
