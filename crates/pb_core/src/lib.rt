//! Gives a protocol file its meaning: the core, with names as numbers and a bound message as a loop of one message; or
//! the first of the rules 1 to 5 that it breaks.
#![tactic(auto)]

mod assemble;
mod build;
mod ends;
mod loops;
mod lowering;
mod tables;

pub use lowering::lower;
pub use pb_core_language::{
    Base, Core, CoreBlock, CoreEnd, CoreKernel, CoreKind, CoreLabel, CoreRole, CoreStmt,
    KernelKind, Lin, LowerFault, NRange, Name, Op, Payload, Place,
};
pub use pb_syntax::FileTree;
