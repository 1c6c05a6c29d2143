//! The tree of a protocol file, the grammar that gives it, its printed layout, and the tables of labels and kernels.
//!
//! `specs/` has the grammar: `Form` (texts and fronts), `Grammar` (each form), `Rows` (the same forms as alternatives)
//! and `Unexpected` (where a list of tokens stops to be a file). `Readers` reads each form from left to right. `Printed`
//! has the tokens of a tree, and `Layout` what stands between them. `Laws` says what holds of all that.
#![tactic(auto)]

ghost use Rattle.pb_syntax.specs.Laws.{FrontsBegin, OneTree, Same};
ghost use Rattle.pb_syntax.specs.Grammar.{lin, role, payload, plain_end, any_end};
ghost use Rattle.pb_syntax.specs.Rows.{lin_row, role_row, payload_row, plain_end_row, any_end_row};

mod core_label;
mod layout;
mod print;
mod statements;
mod tokens;
mod tree;

pub use core_label::{CoreKernel, CoreLabel, KernelKind};
pub use pb_text::{Name, NoMemory, Place, Spot};
pub use print::print_file;
pub use tree::{
    Block, End, FileTree, High, IndexText, LinText, Op, Payload, RangeText, RoleText, Statement,
};

/// The fronts of a file are exactly the lists of tokens with which some file begins.
pub fn fronts_begin()
    ensures { FrontsBegin }
{}

/// A list of tokens is the text of one tree at most.
pub fn one_tree()
    ensures { OneTree }
{}

/// The forms with optional parts have the same texts, for the same values, and the same fronts as their alternatives
/// written out one by one.
pub fn rows()
    ensures lin { Same lin lin_row }
    ensures role { Same role role_row }
    ensures payload { Same payload payload_row }
    ensures plain { Same plain_end plain_end_row }
    ensures any { Same any_end any_end_row }
{}
