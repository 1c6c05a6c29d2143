ghost use Rattle.pb_ctree_laws.specs.Laws.{BodiesAreLines, KeptWhereMade, MadeIsKept, MadeWhereKept, OneSpelling};

/// Bytes are a body exactly where they are whole lines of which none is a marker.
#[tactic(auto, using(crate::proofs::Bodies::bodies_are_lines))]
pub fn bodies_are_lines()
    ensures { BodiesAreLines }
{}

/// With a body for each function, each line of a text keeps its rule exactly where the program is well made and no line
/// of a body is a marker.
#[tactic(auto, using(crate::proofs::Texts::kept_where_made))]
pub fn kept_where_made()
    ensures { KeptWhereMade }
{}

/// Where each line of a text keeps its rule, the program is well made, however many bodies there are.
#[tactic(auto, using(crate::proofs::Texts::made_where_kept))]
pub fn made_where_kept()
    ensures { MadeWhereKept }
{}

/// Each line of the text of a well-made program with bodies keeps its rule, however many bodies there are.
#[tactic(auto, using(crate::proofs::Texts::well_made_kept))]
pub fn made_is_kept()
    ensures { MadeIsKept }
{}

/// A tree with its bodies has one spelling.
#[tactic(auto, using(crate::proofs::Texts::one_spelling))]
pub fn one_spelling()
    ensures { OneSpelling }
{}
