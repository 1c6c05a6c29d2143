//! Which lines of an old text are lost where its bodies alone are kept.
//!
//! A text that the compiler spells has no such line, nor has a kernel file whose lines outside of bodies are blank. A line that looks
//! like a marker and has blanks in front of it is none, so a body would be lost with it.
#![tactic(auto)]

mod outside;
mod scan;

pub use outside::{Outside, first_indented, outside_of};
pub use pb_cread::CText;
pub use pb_text::NoMemory;
