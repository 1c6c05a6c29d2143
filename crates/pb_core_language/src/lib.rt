//! The core of a protocol: the tree with names as numbers and a bound message as a loop of one message, and what it
//! means at each N.
#![tactic(auto)]

mod fault;
mod laws;
mod protocol;
mod tree;

pub use fault::LowerFault;
pub use laws::{ranks_are_numbered, receives_match, runs_extend, takers_are_least};
pub use pb_affine::{Base, Lin, NRange};
pub use pb_syntax::{CoreKernel, CoreLabel, KernelKind, Name, Op, Payload, Place};
pub use protocol::{Core, CoreRole};
pub use tree::{Bounds, CoreBlock, CoreEnd, CoreKind, CoreStmt};
