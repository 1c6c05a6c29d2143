//! Laws on what the parser reads: a file within the limits can be counted, and where it keeps the rules 1 to 5, what it
//! means is sound.
#![tactic(auto)]

mod laws;

pub use laws::{parsed_is_countable, parsed_is_sound};
