//! One event of the world of a printed text: all ranks, their channels and collectives, and what one step of a rank does to them.
#![tactic(auto)]

mod begin;
mod joint;
mod messages;
mod own;
mod quiet;
mod stand;
mod state;
mod weights;

pub use pb_machine::{Act, CTree, Next, NoMemory};
pub use pb_sim_collectives::{Call, Joins, Joint, Op};
pub use pb_text::{Mode, Words};
pub use stand::{Stand, Waits};
pub use state::State;
pub use weights::{weight, words_of};
