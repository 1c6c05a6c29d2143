ghost use Rattle.pb_strips_text_laws.specs.Laws.{FlatIsReadable};

/// The flat file of a file with strips is printed as a text of the grammar, which is within the limits and stands for that
/// file, places aside.
pub fn flat_is_readable()
    ensures { FlatIsReadable }
{}
