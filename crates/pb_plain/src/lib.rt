//! Slow, plain programs that compute what a core means at one N: its ranks, its flat protocol, who takes part, what can end
//! and first outcomes. They follow the definitions step by step, and fast code is tested against them.
#![tactic(auto)]

mod build;
mod first_parts;
mod flat;
mod held;
mod numbered;
mod numbers;
mod opens;
mod outcomes;
mod parts;
mod ranks;
mod site;
mod takes;

pub use build::{flat_block, flat_of, flat_stmt};
pub use first_parts::{add_firsts_if, add_firsts_within};
pub use flat::{Asked, Branches, Collective, Ends, Flat, Mark, Origin, Seat};
pub use held::Held;
pub use numbered::{firsts_in, takes_part_in};
pub use numbers::{range, turns, value};
pub use opens::Opens;
pub use outcomes::{Outcome, firsts, firsts_among};
pub use parts::{is_in_body, takes_part_within};
pub use pb_core_language::{Core, Op, Place};
pub use pb_text::NoMemory;
pub use ranks::{is_same, number_in, seats};
pub use site::{Site, asked, from_one, from_two, mark, rank_of};
pub use takes::{can_end, some_can_end, takes_part, takes_part_among};
