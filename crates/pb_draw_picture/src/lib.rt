//! The picture of a log, as SVG 1.1.
//!
//! `picture` writes it: a line for each rank, the events in their columns, the messages between them, bands for collectives,
//! the longest chain beneath all, and how much is sent below. It has no script and no font of its own, and follows the reader's
//! choice of light or dark.
#![tactic(auto)]

mod arrows;
mod chain;
mod events;
mod frame;
mod labels;
mod lines;
mod pen;
mod scale;
mod sums;
mod tooltip;
mod whole;

pub use pb_text::NoMemory;
pub use whole::{Scene, picture};
