//! Who takes part in a statement, for every N at once: as areas while the tree is walked, and as guards.
//!
//! Words of this crate and of those above it. `whole`: the areas of all ranks of the protocol. `held`: the loops that stand
//! around a statement, the innermost first, each with the areas of the ranks that take part in its body for a reason other
//! than its continue. `around`: in the specs, such a list without the loop that is entered; `inner` is the list with it.
//! `over`: from which to which value the variable of the foreach around an item runs.
#![tactic(auto)]

mod each;
mod ends;
mod held;
mod scan;
mod search;
mod walk;
mod whole;

pub use each::{met_area, takers_each};
pub use ends::{add_end, end_area};
pub use held::{Held, with_loop};
pub use pb_text::NoMemory;
pub use search::takers;
pub use walk::{takers_at, takers_in};
pub use whole::areas_of_roles;
