ghost use Rattle.std.specs.Prelude.{◌≡◌};

use pb_affine::{Base, Lin};

/// A number `off`, or `N + off` where it moves. Offsets lie within 2^33 of zero.
#[derive(Clone, Copy)]
pub struct Line {
    pub moves: bool,
    pub off: i64,
}

impl Line {
    ghost use Rattle.pb_rules.specs.Lines.{line_of, raised, value_at, IsWord, IsShort};
    ghost use Rattle.pb_affine.specs.Values.{IsNear};

    /// The lin, with 0 for a variable.
    pub fn of(lin: Lin) -> Line
        ensures is { result ≡ line_of lin }
        ensures word { IsWord result.off }
        ensures short { IsShort result.off }
    {
        let off = i64::from(lin.off);
        match lin.base {
            Base::Param => Line { moves: true, off },
            Base::Fixed | Base::Var => Line { moves: false, off },
        }
    }

    /// The line with `by` added.
    pub fn raised(self, by: i32) -> Line
        requires { IsWord self.off }
        ensures is { result ≡ raised self by }
        ensures short { IsShort result.off }
    {
        Line {
            moves: self.moves,
            off: self.off + i64::from(by),
        }
    }

    /// The number at N = n.
    pub fn value(self, n: i64) -> i64
        requires short { IsShort self.off }
        requires near { IsNear n }
        ensures { result ≡ value_at self n }
    {
        if self.moves { self.off + n } else { self.off }
    }
}
