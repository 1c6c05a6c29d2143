//! Whether a core is sound: small numbers, rows that are there, a variable only within its foreach, and a continue only within
//! its loop. Each core has this that a file within the limits means, where the file keeps the rules 1 to 5.
#![tactic(auto)]

mod block;
mod lins;
mod opens;
mod protocol;
mod rows;

pub use pb_core_language::Core;
pub use protocol::is_sound;
