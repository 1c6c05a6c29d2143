//! Which branch is taken where no answer is left: the first that can end.
//!
//! It is found in the core, and no flat protocol is built. `specs/Endings.antt` says what of a core can end, and the law
//! that this is what its flat protocol says, at each N.
#![tactic(auto)]

mod endings;
mod laws;

pub use endings::first_ending;
pub use laws::endings_are_flat;
pub use pb_core_language::CoreBlock;
