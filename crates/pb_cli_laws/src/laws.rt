ghost use Rattle.pb_cli_laws.specs.Laws.{DrawnHasAStep, OneSchedule, OneTextTree, ScheduleHasNoFault, TextHasNoFault};

/// Of a text want of memory is the only refusal that is true.
pub fn text_has_no_fault()
    ensures { TextHasNoFault }
{}

/// Of two trees of one text the programs are the same. A slice has fewer than 2^64 bytes.
pub fn one_text_tree()
    ensures { OneTextTree }
{}

/// Of a schedule want of memory is the only refusal that is true.
pub fn schedule_has_no_fault()
    ensures { ScheduleHasNoFault }
{}

/// A text has one schedule.
pub fn one_schedule()
    ensures { OneSchedule }
{}

/// A rank that a seed draws has a step.
pub fn drawn_has_a_step()
    ensures { DrawnHasAStep }
{}
