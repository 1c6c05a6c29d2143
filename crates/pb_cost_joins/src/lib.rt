//! Counts: functions of N on a span of numbers, kept as the fewest stretches on which they are lines.
//!
//! [`constant`] is the same number everywhere, [`clipped`] a line that is cut off at zero, and [`joined`] the sum, the least
//! or the most of two counts. Each count has a weight: from one N to the next it changes by no more.
#![tactic(auto)]

mod adding;
mod count;
mod cut;
mod fault;
mod joining;
mod line;
mod merging;
mod same;
mod span;

pub use count::Count;
pub use cut::clipped;
pub use fault::CountFault;
pub use joining::joined;
pub use line::Line;
pub use pb_cost_pieces::{Join, NoMemory, Ray, Stretch};
pub use same::constant;
pub use span::Span;
