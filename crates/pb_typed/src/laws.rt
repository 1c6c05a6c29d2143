ghost use Rattle.pb_typed.specs.Laws.{ErasedIsPlain, ErasureSpells};

/// Erasing a program text gives the text of its program, with those bodies that the plain text has.
pub fn erased_is_plain()
    ensures { ErasedIsPlain }
{}

/// What is left of a program text spells its tree.
pub fn erasure_spells()
    ensures { ErasureSpells }
{}
