//! Decides the rules 1 to 5 of a protocol file, each at its first place, and numbers its labels and kernels.
#![tactic(auto)]

mod bounds;
mod continues;
mod endings;
mod kernel_rows;
mod kernels;
mod label_rows;
mod labels;
mod name_table;
mod scope;
mod visits;
mod walk;
mod wrong;

pub use bounds::first_unbounded;
pub use continues::first_astray_in;
pub use endings::{Ending, ending_in, place_of};
pub use kernel_rows::{KernelTable, kernel_table};
pub use kernels::add_kernels_in;
pub use label_rows::{LabelTable, label_table};
pub use labels::{Labelled, add_labels_in};
pub use name_table::NameTable;
pub use pb_core_language::LowerFault;
pub use pb_syntax::{CoreKernel, CoreLabel, NoMemory, Place};
pub use scope::{Around, is_same};
pub use visits::{Met, NameKind};
pub use walk::names_met;
pub use wrong::first_wrong_of;
