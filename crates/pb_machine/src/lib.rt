//! The machine of one rank: what a rank of a printed text does next, and one step, run over the tree of the text.
#![tactic(auto)]

mod act;
mod phase;
mod rank;
mod seats;
mod sizes;

pub use act::{Act, Input, Next};
pub use pb_ctree::{CTree, NoMemory, Op};
pub use pb_text::{Action, Joint, Words};
pub use rank::Rank;
pub use seats::total_of;
pub use sizes::Sizes;
