//! What the ranks find first in a block of a file, as guards. The words `whole`, `held`, `reach` and `told` are told at the
//! heads of `pb_part_takers` and `pb_part_firsts`.
#![tactic(auto)]

mod kinds;
mod listed;
mod parts;
mod whole;

pub use kinds::{First, FirstKind};
pub use pb_part_areas::NoMemory;
pub use pb_part_firsts::Source;
pub use pb_part_takers::takers;
pub use whole::firsts;
