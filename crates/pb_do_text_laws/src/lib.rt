//! Law on files with subprotocols: where each call is replaced by the statements of its subprotocol, what comes of it is
//! the tree of a text, places aside.
//!
//! `specs/Limits` says how large the numbers of such a file are, `Laws` what follows for the tree without calls.
#![tactic(auto)]

mod laws;

pub use laws::inlined_is_readable;
