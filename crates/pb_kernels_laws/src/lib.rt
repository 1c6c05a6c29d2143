//! Law on kernel files: a C text is a kernel file of its own bodies, and merging them into its tree gives that text again.
//!
//! `own_kernels` says it of all that the two calls of `pb_kernels` may answer; `own_bodies` makes the calls.
#![tactic(auto)]

mod calls;
mod laws;

pub use calls::own_bodies;
pub use laws::own_kernels;
