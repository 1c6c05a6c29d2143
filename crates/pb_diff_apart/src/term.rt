ghost use Rattle.std.specs.Prelude.{◌≡◌, ◌<◌, ◌≤◌, ℕ, ℤ, pos, IsTrue};
ghost use Rattle.pb_affine.specs.Values.{value, IsSmall};
ghost use Rattle.pb_diff_apart.specs.Terms.{IsTerm, term_value, variable_of};

use pb_affine::{Base, Lin};

/// The number of a system's variable, plus an offset. Variable 0 is 0, variable 1 is N, and variable 2 the index.
#[derive(Clone, Copy)]
pub(crate) struct Term {
    pub(crate) variable: u8,
    pub(crate) offset: i64,
}

/// The number N.
pub(crate) const PARAM: Term = Term {
    variable: 1,
    offset: 0,
};

/// The index.
pub(crate) const INDEX: Term = Term {
    variable: 2,
    offset: 0,
};

fn variable_of(base: Base, own: u8) -> u8
    ensures { result ≡ variable_of base own }
{
    match base {
        Base::Fixed => 0,
        Base::Param => 1,
        Base::Var => own,
    }
}

/// The lin, with the variable `own` for its variable.
pub(crate) fn term_of(lin: Lin, own: u8) -> Term
    requires small { IsSmall lin.off }
    requires own { own < 3 }
    ensures term { IsTerm result }
    ensures is { result ≡ record { variable = variable_of lin.base own; offset = lin.off } }
{
    Term {
        variable: variable_of(lin.base, own),
        offset: i64::from(lin.off),
    }
}

/// A number.
pub(crate) fn number_of(number: u32) -> Term
    ensures term { IsTerm result }
    ensures is { result ≡ record { variable = 0; offset = pos number } }
{
    Term {
        variable: 0,
        offset: i64::from(number),
    }
}
