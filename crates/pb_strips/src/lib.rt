//! The file that a file with strips stands for, in which each column of a strip is a role of its own, or why there is none.
#![tactic(auto)]

mod fault;
mod flattened;

pub use fault::StripFault;
pub use flattened::flatten;
pub use pb_strips_syntax::{Col, StripBlock, StripEnd, StripRole, StripStatement, StripTree};
pub use pb_syntax::FileTree;
