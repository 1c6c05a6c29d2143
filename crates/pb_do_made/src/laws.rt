ghost use Rattle.pb_do_made.specs.Laws.{FilesAreMade, FilesRunAsOne};

/// In the tree of a file what stands without braces has none, and a `foreach` holds messages and computes alone.
pub fn files_are_made()
    ensures { FilesAreMade }
{}

/// A file of the grammar does what the file does in which each call is replaced, for every N, and is over where that one is.
pub fn files_run_as_one()
    ensures { FilesRunAsOne }
{}
