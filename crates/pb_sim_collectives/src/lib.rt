//! Collective calls: what each rank has entered, whether a rank may enter or leave, and with which words it leaves.
#![tactic(auto)]

mod call;
mod combine;
mod joins;
mod lists;
mod results;
mod rounds;
mod window;

pub use call::Call;
pub use joins::Joins;
pub use pb_syntax::{Op, Payload};
pub use pb_text::{Joint, NoMemory, Words};
