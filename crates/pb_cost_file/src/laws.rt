ghost use Rattle.pb_cost_file.specs.Laws.{FileIsCountable};

/// The core of an accepted file is sound, and few messages of few words are written in it.
pub fn file_is_countable()
    ensures { FileIsCountable }
{}
