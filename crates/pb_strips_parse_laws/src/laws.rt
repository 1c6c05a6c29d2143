ghost use Rattle.pb_strips_parse_laws.specs.Laws.{ReadIsSmall, ReadFlatIsReadable};

/// A file with strips whose tokens are within the limits has small numbers, at most 64 branches in each choice, and braces
/// that stand at most 64 deep.
pub fn read_is_small()
    ensures { ReadIsSmall }
{}

/// Where its strips have no fault, and its flat file passes no limit, that file is printed as a text within the limits, and
/// stands for it, places aside.
pub fn read_flat_is_readable()
    ensures { ReadFlatIsReadable }
{}
