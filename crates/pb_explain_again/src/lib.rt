//! What is looked at once more to tell a person of it: the regular files of the system, a file of a call, and what a simulation
//! writes. Also pages on a file that gives no bytes once more.
#![tactic(auto)]

mod again;
mod heard;
mod regular;

pub use again::{
    Again, Loss, MOST_FILE_BYTES, read_again, tell_long, tell_once, text_of_loss, text_of_words,
    text_unread,
};
pub use heard::Heard;
pub use pb_cli_status::Status;
pub use pb_explain_source::{NoMemory, Page};
pub use pb_io::{Folder, Sink};
pub use regular::RegularFolder;
