//! The file in which each call of a subprotocol is replaced by the subprotocol's statements, or why there is none.
#![tactic(auto)]

mod copies;
mod fault;
mod inlined;

pub use fault::DoFault;
pub use inlined::inline;
pub use pb_do_syntax::{CallBlock, CallStatement, CallTree, Sub};
pub use pb_syntax::FileTree;
