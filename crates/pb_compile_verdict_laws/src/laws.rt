ghost use Rattle.pb_compile_verdict_laws.specs.Laws.{AcceptedHasNoFault, OneMeaning, OneVerdict};

/// Of an accepted file no verdict but want of memory is true.
pub fn accepted_has_no_fault()
    ensures { AcceptedHasNoFault }
{}

/// An accepted file has one meaning.
pub fn one_meaning()
    ensures { OneMeaning }
{}

/// Of two verdicts that are true of the same bytes, and neither is want of memory, the one is the other, with its place, its
/// quantity, its rule, its N and its rank.
pub fn one_verdict()
    ensures { OneVerdict }
{}
