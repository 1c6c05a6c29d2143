ghost use Rattle.pb_sched.specs.Outcomes.{OneOutcome};

/// Bytes are the text of one schedule, or have one first line at fault, or one line of event 1,000,001; never two of these.
pub fn one_outcome()
    ensures { OneOutcome }
{}
