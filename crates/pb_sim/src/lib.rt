//! The simulated world: all ranks of a printed text, one event at a time, with the words of an answer function and the list of ranks that have a step.
#![tactic(auto)]

mod answers;
mod begun;
mod counts;
mod held;
mod outcomes;
mod readied;
mod seen;
mod sim;
mod standing;
mod steps;
mod stuck;

pub use answers::Answers;
pub use counts::Counts;
pub use outcomes::{SimFault, StepDone, StepFault};
pub use pb_machine::{CTree, NoMemory};
pub use pb_text::{Action, Joint, Mode, Words};
pub use sim::Sim;
pub use standing::{Cause, Standing};
