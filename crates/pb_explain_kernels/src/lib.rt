//! Why a kernel file doesn't fit a protocol: `tell_kernels` writes the line at fault, or the functions that are missing, as stubs
//! to be pasted, and those that are extra.
#![tactic(auto)]

mod functions;
mod lines;
mod markers;
mod tell;

pub use pb_explain_source::{NoMemory, Page, Place, Source};
pub use tell::tell_kernels;
