ghost use Rattle.pb_judge_endings.specs.Endings.{EndingsAreFlat};

/// What of a sound core can end is what can end of its flat protocol.
pub fn endings_are_flat()
    ensures { EndingsAreFlat }
{}
