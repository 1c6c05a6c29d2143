//! What a person is told of a protocol file: why it isn't accepted, what it is warned of, and what came of it at an N. Also of a
//! kernel file beside it.
#![tactic(auto)]

mod kernels;
mod protocol;
mod running;
mod verdict;

pub use kernels::text_of_merge;
pub use pb_cli_status::Status;
pub use pb_cli_words::Options;
pub use pb_compile::Verdict;
pub use pb_explain_source::{NoMemory, Page, Source};
pub use pb_io::Folder;
pub use protocol::{Ask, tell_protocol, text_of_file};
pub use verdict::verdict_on;
