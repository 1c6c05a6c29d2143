//! Where something stands in the tree of a protocol file: the way to a place, the names in their order, and what can end.
#![tactic(auto)]

mod endings;
mod names;
mod path;
mod statements;

pub use endings::can_end;
pub use names::{Duty, Kind, Seen, names_of};
pub use path::{Step, path_to};
pub use pb_text::{Name, NoMemory, Place, Spot};
pub use statements::{is_same, label_of, place_of};
