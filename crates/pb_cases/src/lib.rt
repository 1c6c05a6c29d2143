//! Which N is the first at which guards do what they must not, decided for every N of a range at once.
//!
//! The ends of guards are lins, the *cuts*. They cut the range of N into stretches, in each of which all ends stand in
//! one order, so the first N of a stretch, a *breakpoint*, decides the whole stretch. [`Cases::of`] finds the
//! breakpoints; [`Cases::first_bad`] and [`Cases::first_meet`] ask at each of them, one role at a time, in time
//! `g log g` for g guards.
#![tactic(auto)]

mod ascending;
mod bad;
mod breakpoints;
mod cases;
mod cover;
mod fault;
mod guesses;
mod region;
mod roles;
mod spans;

pub use bad::Bad;
pub use cases::Cases;
pub use fault::CaseFault;
pub use pb_text::NoMemory;
