ghost use Rattle.std.specs.Prelude.{◌≡◌, ◌≤ℤ◌, pos};

/// What is made of two functions.
#[derive(Clone, Copy)]
pub enum Join {
    Sum,
    Least,
    Most,
}

impl Join {
    ghost use Rattle.pb_cost_pieces.specs.Lines.{joined};

    /// What is made of two numbers.
    pub fn of(self, x: i64, y: i64) -> i64
        requires x_low { pos 0 ≤ℤ x }
        requires y_low { pos 0 ≤ℤ y }
        requires x_high { x ≤ℤ pos 4000000000000000000 }
        requires y_high { y ≤ℤ pos 4000000000000000000 }
        ensures { result ≡ joined self x y }
    {
        match self {
            Join::Sum => x + y,
            Join::Least => x.min(y),
            Join::Most => x.max(y),
        }
    }
}
