//! What a person is told of a C text that is simulated, by a seed or by a schedule: why it is no text or no schedule, for which N
//! it is, and how its simulation stands at its end.
#![tactic(auto)]

mod played;
mod running;
mod schedule;
mod text;

pub use pb_cli_status::Status;
pub use pb_cli_words::Options;
pub use pb_explain_source::NoMemory;
pub use pb_io::Folder;
pub use schedule::{Replay, text_of_replay};
pub use text::text_of_text;
