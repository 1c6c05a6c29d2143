//! The laws on calls that put texts in the place of one OUT at once: whoever does what first, no body is lost.
#![tactic(auto)]

mod laws;

pub use laws::{calls_lose_nothing, one_has_the_lock, two_calls_lose_nothing};
