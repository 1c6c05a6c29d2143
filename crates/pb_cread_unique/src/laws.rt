ghost use Rattle.pb_cread_unique.specs.Laws.{BodiesAsTheyStand, NoFaultOfASpelling, OneLine, OneText};

/// Of two lines of statements with the same bytes that both go on, one is the other.
pub fn one_line()
    ensures { OneLine }
{}

/// Bodies are spelled as they stand.
pub fn bodies_as_they_stand()
    ensures { BodiesAsTheyStand }
{}

/// Of two C trees with bodies that the same bytes spell, all is the same. A slice has fewer than 2^64 bytes.
pub fn one_text()
    ensures { OneText }
{}

/// Want of memory is the only fault of a spelling that keeps the limits.
pub fn no_fault_of_a_spelling()
    ensures { NoFaultOfASpelling }
{}
