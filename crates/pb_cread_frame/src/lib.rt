//! Reads the lines of a C text that stand before its statements: head, prelude, the functions that number ranks, kernel
//! functions, and main's first lines. `specs/Reading` says what state a line leads to, `specs/Ahead` what lines are ahead of
//! a state, and `specs/Laws` that the lines that are read are exactly the first lines of some program's text.
#![tactic(auto)]

mod laws;
mod lines;
mod reader;
mod row;
mod taking;

pub use laws::{
    are_fronts, are_fronts_that_are_read, are_no_fronts, follows_all, is_sound, reads_fronts,
    refuses_no_front, starts_texts,
};
pub use pb_ctree::NoMemory;
pub use reader::FrameReader;
pub use row::is_line;
