//! What a rank finds first in a block, for every N at once.
//!
//! `whole`, `held` and `over` are told at the head of `pb_part_takers`. `reach`: the areas of the ranks that come to a part
//! of the block, since they found nothing before it; those that find nothing in it either are left, and come to the next
//! part. `told`: the areas of the ranks that come to a branch, which are those that come to the choice without its chooser;
//! or those that come to the block that is asked for, which are all.
#![tactic(auto)]

mod each;
mod firsts;
mod parts;
mod plain;
mod search;
mod sides;
mod single;
mod stop;
mod takers;
mod turns;
mod walk;
mod whole;

pub use firsts::{Entry, Kind, Source};
pub use pb_part_takers::Held;
pub use search::Found;
pub use takers::{takers_in, with_loop};
pub use walk::firsts_in;
pub use whole::found_in;
