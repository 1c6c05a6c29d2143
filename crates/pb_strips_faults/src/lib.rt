//! What may be wrong with the strips of a file: one of five faults, of which the least counts, at its first place.
//!
//! `specs/Sites` has the ends of a file with the `columns` around them, and `Spelled` its names. `Faults` has the places of
//! each fault, and `Found` which one counts. `Parts` has the faults of ends alone, and `Tabled` what a table of the names of
//! columns answers.
#![tactic(auto)]

mod clashes;
mod declared_columns;
mod ends;
mod fault;
mod found;
mod names;
mod outside;
mod places;
mod site;
mod table;

pub use fault::ColumnFault;
pub use found::checked_strips;
pub use site::{Around, EndSite};
