//! Functions of N as stretches of numbers on which they are lines.
//!
//! [`Builder`] puts lines together, one behind the other, and keeps each stretch as long as it can be. [`least_of`] and
//! [`most_of`] say where the least and the most of two lines goes from one of them to the other.
#![tactic(auto)]

mod builder;
mod crossing;
mod join;
mod longer;
mod ray;
mod stretch;
mod switch;

pub use builder::Builder;
pub use join::Join;
pub use pb_text::NoMemory;
pub use ray::Ray;
pub use stretch::Stretch;
pub use switch::{Switch, least_of, most_of};
