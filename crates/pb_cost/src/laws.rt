ghost use Rattle.pb_cost.specs.Laws.{OneList};

/// Each count of a part of a protocol has one list of pieces.
pub fn one_list_of_pieces()
    ensures { OneList }
{}
