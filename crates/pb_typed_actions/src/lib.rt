//! Prints what a program text has for each action: the calls of kernel functions and of MPI, the checks of the kernels' own
//! memory, and the recorder's lines. Each call appends to a text, at a depth, which is the number of open braces.
#![tactic(auto)]

mod actions;
mod calls;
mod memory;

pub use actions::{
    push_allreduce, push_barrier, push_broadcast, push_choose, push_recv, push_reduce, push_run,
    push_send,
};
