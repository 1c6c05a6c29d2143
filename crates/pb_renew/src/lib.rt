//! Renewing a text: OUT gets the text of a tree, with the bodies that it had, and OUT.left those that have no function any more.
//!
//! `place_of` looks what OUT and OUT.left are, `plan_for` says what is to become of them, or why nothing is, and `pb_renew_put::put` does
//! it. Nothing is lost: each body of the old OUT stands in the planned text or in the planned OUT.left, and a line outside of bodies that
//! would be lost is a reason to refuse, or to keep the old OUT whole.
#![tactic(auto)]

mod content;
mod leaving;
mod losing;
mod made;
mod place;
mod plan;
mod renewal;
mod unrenewed;

pub use losing::Losing;
pub use pb_renew_merge::{CTree, Form, KernelFault, NoMemory, Wanted};
pub use pb_renew_store::Store;
pub use place::{Place, place_of};
pub use plan::{Plan, plan_for};
pub use unrenewed::Unrenewed;
