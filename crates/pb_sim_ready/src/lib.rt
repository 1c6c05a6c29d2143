//! The numbers that are ready, of those below a total: a list that ascends and is kept by one edit for each change.
#![tactic(auto)]

mod place;
mod ready;

pub use pb_text::NoMemory;
pub use ready::Ready;
