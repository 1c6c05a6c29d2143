//! The reader of logs: from bytes to actions, each with the number of its line.
//!
//! A log has a line for each action, as `pb_sched` prints it. `specs/Entries.antt` says which bytes are the log of a
//! protocol at one N, and which line is the first that isn't such a line. `specs/Reading.antt` says what is read from the
//! fields of one line.
#![tactic(auto)]

mod actions;
mod carried;
mod fault;
mod fields;
mod log;
mod numbers;
mod ranks;
mod reading;
mod tables;

pub use fault::LogFault;
pub use log::Log;
pub use pb_core_language::Core;
pub use pb_text::{Action, Joint, NoMemory, Words};
pub use ranks::{has_few_ranks, total};
pub use reading::read_log;
