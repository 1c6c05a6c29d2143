//! Kernel files: the bodies of a text's kernel functions, between marker lines, and their place in the text.
//!
//! `read_kernels` takes the bytes of a file and gives its bodies by name, or the first line at fault; `read_bodies` does the
//! same in each dialect. `merge` puts them where a tree's text has its functions. `specs/` has the format: `Marks` (what a
//! marker is), `Format` (what a file is), `Files` (what its lines are one by one, up to the first at fault) and `Merges`
//! (which bodies a text gets).
#![tactic(auto)]

mod dialect;
mod fault;
mod file;
mod functions;
mod law;
mod marker;
mod merging;
mod read;
mod reading;

pub use dialect::Dialect;
pub use fault::KernelFault;
pub use file::{KernelFile, NamedBody};
pub use law::{plain_files_are_program_files, reads_the_format};
pub use merging::{bodies_of, merge};
pub use pb_ctree::{Bodies, Body, CTree, KName, Kind, Name, NoMemory};
pub use read::{read_bodies, read_kernels};
