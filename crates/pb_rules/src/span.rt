ghost use Rattle.std.specs.Prelude.{◌≡◌, pos, ◌+ℤ◌, ◌-ℤ◌, false};
ghost use Rattle.pb_affine.specs.Values.{IsNear};
ghost use Rattle.pb_rules.specs.Lines.{later, earlier_end, number_if, IsShort, IsLong};

use crate::line::Line;
use pb_affine::NRange;

/// The N from `from` on, up to `until` where there is one.
#[derive(Clone, Copy)]
pub struct Span {
    pub from: i64,
    pub until: Option<i64>,
}

impl Span {
    ghost use Rattle.pb_rules.specs.Lines.{whole, kept_where, at_most, below, first_of, IsShort, IsLong};

    /// All N of the range.
    pub fn whole(range: NRange) -> Span
        ensures is { result ≡ whole range }
        ensures near { IsNear result.from }
    {
        Span {
            from: i64::from(range.low),
            until: number_of(range.high),
        }
    }

    /// Those of the span at which the first line is at most the second.
    pub fn at_most(self, a: Line, b: Line) -> Span
        requires near { IsNear self.from }
        requires a { IsShort a.off }
        requires b { IsShort b.off }
        ensures is { result ≡ at_most self a b }
        ensures near { IsNear result.from }
    {
        self.kept_where(a.moves, b.moves, gap(a, b))
    }

    /// Those of the span at which the first line is below the second.
    pub fn below(self, a: Line, b: Line) -> Span
        requires near { IsNear self.from }
        requires a { IsShort a.off }
        requires b { IsShort b.off }
        ensures is { result ≡ below self a b }
        ensures near { IsNear result.from }
    {
        self.kept_where(a.moves, b.moves, wide_gap(a, b))
    }

    // Those n at which `d`, and n if `a` moves, is at most 0, and n if `b` moves.
    fn kept_where(self, a: bool, b: bool, d: i64) -> Span
        requires near { IsNear self.from }
        requires d { IsLong d }
        ensures is { result ≡ kept_where self a b d }
        ensures near { IsNear result.from }
    {
        if a == b {
            self.kept_if(d)
        } else if b {
            Span {
                from: later(self.from, d),
                until: self.until,
            }
        } else {
            Span {
                from: self.from,
                until: Some(earlier_end(self.until, 0 - d)),
            }
        }
    }

    fn kept_if(self, d: i64) -> Span
        requires { IsNear self.from }
        ensures is { result ≡ kept_where self false false d }
        ensures near { IsNear result.from }
    {
        if d <= 0 {
            self
        } else {
            Span {
                from: 1,
                until: Some(0),
            }
        }
    }

    /// The least.
    pub fn first(self) -> Option<i64>
        ensures { result ≡ first_of self }
    {
        match self.until {
            None => Some(self.from),
            Some(until) => if self.from <= until {
                Some(self.from)
            } else {
                None
            },
        }
    }
}

fn gap(a: Line, b: Line) -> i64
    requires a { IsShort a.off }
    requires b { IsShort b.off }
    ensures is { result ≡ a.off -ℤ b.off }
    ensures long { IsLong result }
{
    a.off - b.off
}

// One more than the gap.
fn wide_gap(a: Line, b: Line) -> i64
    requires a { IsShort a.off }
    requires b { IsShort b.off }
    ensures is { result ≡ a.off -ℤ b.off +ℤ pos 1 }
    ensures long { IsLong result }
{
    a.off - b.off + 1
}

fn number_of(high: Option<u32>) -> Option<i64>
    ensures { result ≡ number_if high }
{
    match high {
        None => None,
        Some(high) => Some(i64::from(high)),
    }
}

fn later(a: i64, b: i64) -> i64
    ensures { result ≡ later a b }
{
    if a <= b { b } else { a }
}

fn earlier_end(a: Option<i64>, b: i64) -> i64
    ensures { result ≡ earlier_end a b }
{
    match a {
        None => b,
        Some(a) => if a <= b { a } else { b },
    }
}
