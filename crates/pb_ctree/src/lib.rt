//! The tree of a C text: an endpoint program with the numbers of its ranks, the bodies of its kernels, and whether the parts
//! of its lines keep their rules.
#![tactic(auto)]

mod body;
mod emitting;
mod kernel;
mod kernels;
mod rules;
mod tree;

pub use body::{Bodies, Body};
pub use emitting::{emit, number_roles};
pub use kernel::{KName, Kind};
pub use kernels::{default_bodies, functions, has_words};
pub use pb_affine::{Base, Guard, Guards, Lin, NRange};
pub use pb_local::{
    CoreKernel, CoreLabel, KernelKind, Local, Op, Payload, Peer, Relay, Role, Stmt, Test,
};
pub use pb_text::{Name, NoMemory};
pub use rules::{
    are_below, are_guards, can_choose, computes, goes_with, is_chooser, is_label, is_offset,
    is_peer, is_wordy,
};
pub use tree::{CTree, Formula};
