ghost use Rattle.pb_do_parse_laws.specs.Laws.{ReadIsSmall, ReadInlinedIsReadable};

/// A file with subprotocols whose tokens are within the limits has small numbers, at most 64 roles, and at most 64 branches
/// in each choice.
pub fn read_is_small()
    ensures { ReadIsSmall }
{}

/// Where each of its calls is replaced, what comes of it is printed as a text within the limits, and stands for that file,
/// places aside.
pub fn read_inlined_is_readable()
    ensures { ReadInlinedIsReadable }
{}
