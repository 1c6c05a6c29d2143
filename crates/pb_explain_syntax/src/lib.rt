//! Why bytes are no protocol file: what was found, and what could stand there.
//!
//! `grammar` has the grammar as a table, and `walk` goes along it, token by token, to the first that doesn't go on. What could
//! stand there is what the table offers. `tell_syntax`, `tell_byte` and `tell_limit` write the message.
#![tactic(auto)]

mod bytes;
mod grammar;
mod hints;
mod limits;
mod symbol;
mod tell;
mod walk;

pub use bytes::{tell_byte, tell_comment};
pub use limits::{tell_excess, tell_limit};
pub use pb_explain_source::{NoMemory, Page, Part, Place, Source};
pub use tell::tell_syntax;
