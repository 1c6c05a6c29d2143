//! Putting a new text in the place of an old one, and bodies that are left beside it, so that nothing is lost on the way.
#![tactic(auto)]

mod fault;
mod files;
mod job;
mod left;
mod lock;
mod look;
mod names;
mod old;
mod putting;
mod remove;
mod text;
mod whole;

pub use fault::PutFault;
pub use job::{Job, Leaving};
pub use names::{is_written, left_name, new_name, old_file, spare_name};
pub use pb_text::NoMemory;
pub use putting::put;
