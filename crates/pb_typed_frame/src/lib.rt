//! Prints the head of a program text, with what its labels carry, and its functions with their bodies.
#![tactic(auto)]

mod bodies;
mod functions;
mod head;
mod heads;
mod labels;
mod lines;
mod list;

pub use bodies::default_of;
pub use functions::push_functions;
pub use head::push_head;
pub use list::{body_name, program_functions};
pub use pb_ctree::{Body, CTree, KName, Local};
pub use pb_text::NoMemory;
pub use pb_typed::{Function, Role};
pub use pb_typed_types::{Carried, Constant, Types};
