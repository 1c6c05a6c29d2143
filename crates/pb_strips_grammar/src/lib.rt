//! The grammar of protocol files with strips.
//!
//! `specs/Tokens` says how the keyword `columns` is read. `specs/Grammar` has each form: those of `pb_syntax` with strips as
//! roles, columns of ends, and `columns` around statements or items. `Unexpected` says where a list of tokens stops to be a
//! file. `Readers` reads each form from left to right, and `Laws` says what holds of all that.
#![tactic(auto)]

ghost use Rattle.pb_strips_grammar.specs.Laws.{FrontsBegin, OneTree, WholeTells};

/// The fronts of a file are exactly the lists of tokens with which some file begins.
pub fn fronts_begin()
    ensures { FrontsBegin }
{}

/// A list of tokens is the text of one tree at most.
pub fn one_tree()
    ensures { OneTree }
{}

/// Reading all the tokens gives the tree of a file. Where there is none, it stops before the first token such that the
/// tokens up to it are no front of a file, or behind the last token where these are a front.
pub fn whole_tells()
    ensures { WholeTells }
{}
