//! Messages that were sent and not taken: a list for each sender and receiver.
#![tactic(auto)]

mod channels;
mod message;
mod queues;

pub use channels::Channels;
pub use message::Message;
pub use pb_text::{NoMemory, Words};
