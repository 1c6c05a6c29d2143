ghost use Rattle.pb_cread_statements.specs.Laws.{ReadsStatements, ReadsFronts, IsFrontThatIsRead, AreLinesThatAreRead, RefusesNoFront, UnfinishedIsNoWhole, CountsBraces, MarksStatements};
ghost use Rattle.pb_cread_statements.specs.Fitting.{FitsWhatGoesOn};
ghost use Rattle.pb_cread_statements.specs.Labels.{OnlyOneGoesOn, RelabelledIsLine};

/// The lines of any statements that keep their rules are read to the end, and give these statements and their number.
#[tactic(auto, using(crate::proofs::Laws::reads_statements))]
pub fn reads_statements()
    ensures { ReadsStatements }
{}

/// The first lines of any statements that keep their rules are read, and what is counted are the statements that begin in
/// them.
#[tactic(auto, using(crate::proofs::Laws::reads_fronts))]
pub fn reads_fronts()
    ensures { ReadsFronts }
{}

/// Lines that are read are the first lines of some statements, and keep their rules.
#[tactic(auto, using(crate::proofs::Laws::is_front))]
pub fn is_front_that_is_read()
    ensures { IsFrontThatIsRead }
{}

/// Where nothing is open or half spelled, they are the lines of the statements that were read.
#[tactic(auto, using(crate::proofs::Laws::are_lines))]
pub fn are_lines_that_are_read()
    ensures { AreLinesThatAreRead }
{}

/// A line that doesn't go on is none that statements could have behind the lines that were read.
#[tactic(auto, using(crate::proofs::Laws::refuses))]
pub fn refuses_no_front()
    ensures { RefusesNoFront }
{}

/// Where something is open or half spelled, the lines are not the whole of any statements.
#[tactic(auto, using(crate::proofs::Laws::no_whole))]
pub fn unfinished_is_no_whole()
    ensures { UnfinishedIsNoWhole }
{}

/// The open braces are those that the lines open and don't close, and main's own.
#[tactic(auto, using(crate::proofs::Laws::counts_braces))]
pub fn counts_braces()
    ensures { CountsBraces }
{}

/// Each line has a mark, and as many marks say that a statement begins as there are statements.
pub fn marks_statements()
    ensures { MarksStatements }
{}

/// Of the lines with the same text only the relabelled one can go on.
pub fn only_one_goes_on()
    ensures { OnlyOneGoesOn }
{}

/// A line is spelled as before with its new label.
#[tactic(auto, using(crate::proofs::Relabelled::is_line))]
pub fn relabelled_is_line()
    ensures { RelabelledIsLine }
{}

/// The depth and the numbers of a line that goes on fit 32 bits, and the tables have its rows, as long as at most 50,000
/// statements have begun and at most 256 braces are open.
pub fn fits_what_goes_on()
    ensures { FitsWhatGoesOn }
{}
