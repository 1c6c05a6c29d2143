//! How much a block of statements sends at least, or at most, for every N of a span: one of four counts.
//!
//! [`of_block`] walks through the block. A block's count is the sum over its statements, and a choice's the least, or the
//! most, of its branches. It ends where the first statements of some block, or the first branches of some choice, have more
//! than 4,096 pieces.
#![tactic(auto)]

mod asked;
mod block;
mod end;
mod foreach;
mod join;
mod running;
mod same;
mod stop;
mod values;

pub use asked::{Asked, Counted, Way};
pub use block::of_block;
pub use pb_core_language::{CoreBlock, CoreLabel};
pub use pb_cost_joins::{Count, Span, Stretch};
pub use stop::Stop;
