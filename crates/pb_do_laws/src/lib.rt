//! The machine that runs a file with subprotocols, and that its runs are those of the file with each call replaced.
//!
//! `specs/Machine.antt` has the machine: a call puts the body of its subprotocol on a stack, with each parameter standing for
//! a role. `specs/Deeds.antt` says what statements do then, `specs/Ends.antt` what can end, and `specs/Made.antt` what the
//! grammar says of a tree. `specs/Laws.antt` has the laws.
#![tactic(auto)]

mod laws;

pub use laws::{calls_end, continues_stay, runs_are_one};
