//! The tree of a protocol file with subprotocols, and what its calls mean.
//!
//! `specs/Calls` has the tree as plain lists, and `Plain` tells which one a value of the program is. `Names` looks names
//! up, and `Inlining` says what comes of a file whose calls are each replaced by the statements of their subprotocol.
#![tactic(auto)]

mod tree;

pub use tree::{CallBlock, CallStatement, CallTree, Sub};
