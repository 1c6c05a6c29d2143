//! Schedules, the picks that make them, and the lines of a log.
//!
//! A schedule is a seed and a list of turns: who makes each event, and in which mode. `read_schedule` reads the two
//! formats and tells the first line at fault, `print_schedule` writes the second. `specs/` has `Formats` (the lines and
//! the layout), `Outcomes` (what bytes are: a schedule, or a text with a first line at fault), `Draws` (the words that
//! pick a rank and a mode) and `Logged` (the line of each action).
#![tactic(auto)]

mod fault;
mod format;
mod laws;
mod log;
mod numbers;
mod parts;
mod picks;
mod printing;
mod reading;
mod schedule;

pub use fault::ScheduleFault;
pub use laws::one_outcome;
pub use log::{log_line, push_line};
pub use pb_ctree::CTree;
pub use pb_text::{Action, Joint, Mode, NoMemory, Words};
pub use picks::{Draw, Picks, pick, pick_mode};
pub use printing::print_schedule;
pub use reading::read_schedule;
pub use schedule::{Schedule, Turn};
