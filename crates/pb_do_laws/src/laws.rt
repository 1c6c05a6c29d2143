ghost use Rattle.pb_do_laws.specs.Laws.{CallsEnd, ContinuesStay, EndsAreLeast, RunsAreOne};

/// A call can end exactly if the body of its subprotocol can, and no more calls than that asks for.
pub fn calls_end()
    ensures bodies { CallsEnd }
    ensures least { EndsAreLeast }
{}

/// A `continue` whose loop is open inside a call leaves alone what the call stands in.
pub fn continues_stay()
    ensures { ContinuesStay }
{}

/// A file with calls does what the file does in which each call is replaced, for every N, and is over where that one is.
pub fn runs_are_one()
    ensures { RunsAreOne }
{}
