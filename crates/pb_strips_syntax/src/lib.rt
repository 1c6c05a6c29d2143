//! The tree of a protocol file with strips, and the file without strips that it stands for.
//!
//! A strip is a role with two dimensions, of which the second has a constant width: `role G[0..N-1][0..2]`. `specs/Strips`
//! has the tree as plain lists, and `Plain` tells which one a value of the program is. `Columns` says what a column is
//! called, and `Flattening` what comes of a file in which each column of a strip is a role of its own.
#![tactic(auto)]

mod tree;

pub use tree::{Col, StripBlock, StripEnd, StripRole, StripStatement, StripTree};
