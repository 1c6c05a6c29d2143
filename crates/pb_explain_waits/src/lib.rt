//! Who waits for whom in a simulation in which nobody can go on. It looks at the simulation as it stands at its end, and at
//! what was heard of it.
#![tactic(auto)]

mod chain;
mod seats;
mod standstill;

pub use chain::{Chain, Last, causes_of};
pub use pb_explain_again::Heard;
pub use pb_explain_source::{NoMemory, Page};
pub use pb_sim::{Cause, Sim};
pub use seats::{Seat, seats_of, value};
pub use standstill::{Standstill, tell_standstill};
