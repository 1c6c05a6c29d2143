ghost use Rattle.pb_demo_file.specs.Laws.{RunsFromTwo};

/// A tree that is read from the printed file has the range from 2 on.
pub fn runs_from_two()
    ensures { RunsFromTwo }
{}
