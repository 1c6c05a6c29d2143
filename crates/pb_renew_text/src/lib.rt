//! The text that is wanted of a tree, plain or with types, with the bodies of an old text.
//!
//! A function has its old body where its parameters allow it, and else the default one. The parameters of a label's functions
//! are others where its elements stand in the kernels' own memory (`TYPE[]` in a types file): the old text had it so exactly
//! where it has a body `room_A`.
#![tactic(auto)]

mod text;
mod wanted;

pub use pb_kernels::{Bodies, Body, CTree, KernelFile, NoMemory};
pub use pb_typed_frame::Function;
pub use pb_typed_types::Form;
pub use text::{default_in, wanted_functions, wanted_text};
pub use wanted::Wanted;
