//! Reads the lines of a C text's statements, one by one. A line is read where it is spelled so, byte for byte.
#![tactic(auto)]

mod conds;
mod cursor;
mod guess;
mod item;
mod mpi;
mod names;
mod payloads;
mod print;
mod read;
mod tables;
mod words;

pub use item::{Item, Side};
pub use pb_ctree::NoMemory;
pub use read::{ReadLine, read_line};
pub use tables::Tables;
