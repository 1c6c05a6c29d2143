//! Laws on answers: what a text and a schedule are never answered.
#![tactic(auto)]

mod laws;

pub use laws::{
    drawn_has_a_step, one_schedule, one_text_tree, schedule_has_no_fault, text_has_no_fault,
};
