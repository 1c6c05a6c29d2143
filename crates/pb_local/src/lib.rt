//! The endpoint program that a protocol projects to.
#![tactic(auto)]

mod copy;
mod laws;
mod layout;
mod lines;
mod pieces;
mod small;
mod stmt;
mod tables;

pub use laws::{
    counts_within, ends_when_finished, follows_alone, keeps_rank, lost_or_undefined, names_ranks,
};
pub use layout::print_local;
pub use pb_affine::{Base, Guard, Guards, Lin, NRange};
pub use pb_syntax::{CoreKernel, CoreLabel, KernelKind, Op, Payload};
pub use pb_text::{Name, NoMemory};
pub use pieces::{push_indent, push_pieces};
pub use small::is_same_lin;
pub use stmt::{Peer, Relay, Stmt, Test};
pub use tables::{Local, Role};
