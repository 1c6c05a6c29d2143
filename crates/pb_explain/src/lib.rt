//! What the program tells a person beside its answer: `explain` reads the files of a call once more, and writes why it ended so,
//! with the line, the reason and a remedy. It writes nothing where all is well and nothing is to be warned of.
//!
//! The answer and the status of the call are what they were: they are given, and not changed. The crates `pb_explain_..` make the
//! messages; this one finds out which is due.
#![tactic(auto)]

mod calls;
mod costs;
mod entry;
mod files;
mod judged;
mod named;
mod strips;

pub use entry::explain;
pub use pb_cli_status::Status;
pub use pb_explain_again::RegularFolder;
pub use pb_io::{Folder, Sink};
