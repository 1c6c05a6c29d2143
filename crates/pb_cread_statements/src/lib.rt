//! Reads the statements of a C text's main, line by line. A reader takes one line after the other, each with its depth,
//! and says whether the lines up to there begin the statements of some program. When nothing is open or half spelled,
//! it gives the statements that all its lines spell. It looks at no bytes and at no line twice, and never recurses.
#![tactic(auto)]

mod brace;
mod choices;
mod facts;
mod kept;
mod labels;
mod messages;
mod reader;
mod rules;
mod statements;
mod told;
mod wanted;

pub use facts::{
    are_lines_that_are_read, counts_braces, fits_what_goes_on, is_front_that_is_read,
    marks_statements, only_one_goes_on, reads_fronts, reads_statements, refuses_no_front,
    relabelled_is_line, unfinished_is_no_whole,
};
pub use pb_cread_lines::{Item, Side};
pub use pb_ctree::{
    Base, Guard, Guards, KernelKind, Lin, Local, NoMemory, Op, Payload, Peer, Relay, Stmt, Test,
};
pub use reader::Reader;
