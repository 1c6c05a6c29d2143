//! Areas: the indices of a role between two cuts, for the numbers N between two others. Lists of areas are sets of
//! ranks for every N at once, and are cut, taken apart and put together by comparing lins.
#![tactic(auto)]

mod area;
mod bounds;
mod clip;
mod cover;
mod cut;
mod empty;
mod guard;
mod join;
mod long;
mod numbers;
mod pair;
mod sets;
mod tidy;

pub use area::{Area, nowhere, since, until};
pub use bounds::{near, spanned};
pub use clip::clipped;
pub use cover::is_apart;
pub use cut::Two;
pub use empty::is_empty;
pub use guard::{guard_of, guards_of};
pub use join::{joined, push};
pub use long::{cloned, gather, gather_all};
pub use numbers::{is_param, meet};
pub use pb_text::NoMemory;
pub use sets::{absorb, add_all, add_new, common, copied, one, without};
pub use tidy::{attach, attach_all, merged, ordered, tidied};
