//! How the ranks learn of a choice: the tests of its projection, and the relays.
#![tactic(auto)]

mod entries;
mod guards;
mod relays;
mod testing;

pub use entries::{Branch, branches_of};
pub use guards::guards_in;
pub use pb_text::NoMemory;
pub use relays::relays_of;
pub use testing::tests_of;
