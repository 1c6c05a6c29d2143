//! Laws on C texts: what the bytes of a line, and of a whole text, say of what they spell.
#![tactic(auto)]

mod laws;

pub use laws::{bodies_as_they_stand, no_fault_of_a_spelling, one_line, one_text};
