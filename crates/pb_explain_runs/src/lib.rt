//! Why a simulation doesn't begin, or doesn't come to its end: what is wrong with a line of a schedule, which N there are, how
//! many ranks and events, and who waits for whom. And why a log isn't one of a protocol's.
#![tactic(auto)]

mod counts;
mod logs;
mod outside;
mod schedules;
mod unended;
mod waits;

pub use counts::{Count, MOST_RANKS, tell_many_ranks};
pub use logs::{tell_beyond, tell_differs, tell_log_line};
pub use outside::{Values, tell_outside, tell_outside_text};
pub use pb_explain_source::{NoMemory, Page, Place, Source};
pub use schedules::{help_no_step, tell_no_rank, tell_no_step, tell_schedule_line};
pub use unended::{tell_events, tell_flight, tell_turns};
pub use waits::{
    Wait, help_stuck, note_deed, note_deeds, note_more, note_ring, note_wait, note_waits,
    tell_left, tell_stuck, tell_wait,
};
