//! Program texts: the text of a C tree line for line, with other data in it. Their pieces, and what is left of them where they
//! are erased.
#![tactic(auto)]

mod function;
mod laws;

pub use function::{Function, Role};
pub use laws::{erased_is_plain, erasure_spells};
