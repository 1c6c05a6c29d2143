ghost use Rattle.pb_do_text_laws.specs.Laws.{InlinedIsReadable};

/// The file in which each call is replaced is printed as a text of the grammar, which is within the limits and stands for
/// that file, places aside.
pub fn inlined_is_readable()
    ensures { InlinedIsReadable }
{}
