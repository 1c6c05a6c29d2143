//! The shape of a projection: which endpoint programs belong to a protocol. `specs/` has `Shape` (the relation, with its parts in
//! `Places`, `Guards`, `Items`, `Segments`, `Pieces`, `Loops` and `Choices`), `Ways` and `Straight` (what the code of a straight
//! statement does), and `Theorem` (what the ranks of such a program do).
#![tactic(auto)]

ghost use Rattle.std.specs.Prelude.{◌≡◌};
ghost use Rattle.pb_shape.specs.Shape.{HasShape};
ghost use Rattle.pb_core_language.specs.Plain.{Protocol};
ghost use Rattle.pb_local.specs.Tree.{Program};

/// A program of the shape has the protocol's range.
pub fn ranges_agree()
    ensures { (p : Protocol) (l : Program) → HasShape p l → l.range ≡ p.range }
{}
