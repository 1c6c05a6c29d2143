//! Law on files with strips: the flat protocol of such a file is that of the file that it stands for.
//!
//! `specs/Cells` has the ranks of a file with strips and their order, `specs/Flat` its flat protocol at one N, and
//! `specs/Laws` the law.
#![tactic(auto)]

ghost use Rattle.pb_strips_laws.specs.Laws.{FlatIsStrip};

/// Where a file with strips has no fault, and the file that it stands for keeps the rules 1 to 5, then for every N of the range
/// both have one flat protocol, in which each cell of a strip has the number of the rank of its column's role.
pub fn flat_is_strip()
    ensures { FlatIsStrip }
{}
