//! Systems of constraints `a - b <= c` on the differences of up to six whole numbers, the first of which is 0.
//!
//! A system takes at most 16 constraints, and answers its pointwise least solution, or that it has none. One variable
//! after the other is eliminated: the smaller system has a solution exactly where the larger one has, and the least
//! number of the variable that went is read off the least numbers of the others. Nothing here takes memory.
#![tactic(auto)]

mod constraint;
mod system;
mod table;

pub use constraint::Constraint;
pub use system::System;
