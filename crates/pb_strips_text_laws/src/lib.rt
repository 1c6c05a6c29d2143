//! Law on files with strips: the flat file that such a file stands for is the tree of a text, places aside.
//!
//! `specs/Limits` says how large the numbers of a file with strips are, and how deep its braces stand, `Laws` what follows
//! for its flat file.
#![tactic(auto)]

mod laws;

pub use laws::flat_is_readable;
