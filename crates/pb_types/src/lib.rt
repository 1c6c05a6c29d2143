//! Types files: what the labels of a protocol carry in a program, where that isn't the protocol's words.
//!
//! `specs/Grammar` has each form, over the tokens of a protocol file. `Unexpected` says where a list of tokens stops to be a
//! types file, and `Read` which answer of the reader is right. `Elements` has the names and sizes of the types.
#![tactic(auto)]

ghost use Rattle.pb_types.specs.Laws.{FrontsBegin, OneTree, WholeTells};

mod carried;
mod element;
mod fault;
mod file;
mod lines;
mod tree;
mod verdict;

pub use carried::{Carried, push_type_row};
pub use element::Element;
pub use fault::TypesFault;
pub use pb_lex::LexError;
pub use pb_text::{Name, Place, Spot};
pub use tree::{Constant, ElementSpot, Extent, TypeRow, TypesFile};
pub use verdict::read_types;

/// The fronts of a types file are exactly the lists of tokens with which some file begins.
pub fn fronts_begin()
    ensures { FrontsBegin }
{}

/// A list of tokens is the text of one tree at most.
pub fn one_tree()
    ensures { OneTree }
{}

/// Reading all the tokens gives the tree of a file. Where there is none, it stops before the first token such that the
/// tokens up to it are no front of a file, or behind the last token where these are a front.
pub fn whole_tells()
    ensures { WholeTells }
{}
