ghost use Rattle.pb_parse_laws.specs.Laws.{ParsedIsCountable, ParsedIsSound};

/// What is counted in a file of at most 67,108,864 bytes has a number of 32 bits: each statement, block, role and name has a
/// token of its own, or three at most have one.
pub fn parsed_is_countable()
    ensures { ParsedIsCountable }
{}

/// The core of a file within the limits that keeps the rules 1 to 5 is sound.
pub fn parsed_is_sound()
    ensures { ParsedIsSound }
{}
