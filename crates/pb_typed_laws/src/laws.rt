ghost use Rattle.pb_typed_laws.specs.Laws.{CallsStay, EndsAgree};

/// Each call of MPI among the statements keeps its place, its rank, its tag and its operation.
pub fn calls_stay()
    ensures { CallsStay }
{}

/// Both ends of a label have one type, and one count or the receiver's room.
pub fn ends_agree()
    ensures { EndsAgree }
{}
