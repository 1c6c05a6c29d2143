//! What entries have in common: their label, their sender, a rank.
#![tactic(auto)]

mod agree;
mod alike;
mod close;
mod difference;
mod labels;
mod order;
mod pair;
mod pairs;
mod sources;

pub use agree::agreement;
pub use alike::have_one_source;
pub use difference::less;
pub use pairs::{clashes, forks};
pub use sources::{distinct, sources_of};
