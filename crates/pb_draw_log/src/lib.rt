//! The lines of a log, read without a protocol: labels and kernels are what the log names.
//!
//! `read_log` reads what `run`, `sim` and `replay` write, and tells the first line in no such form. `specs/` has `Parts`
//! (what a line begins with), `Lines` (a line, and lines one after the other) and `Ends` (what may stand behind them).
#![tactic(auto)]

mod ends;
mod entry;
mod fault;
mod heads;
mod line;
mod log;
mod parts;
mod words;

pub use entry::{Deed, Entry, Log, Step};
pub use fault::LogFault;
pub use log::read_log;
pub use pb_text::{Name, Names, NoMemory};
