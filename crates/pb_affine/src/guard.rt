ghost use Rattle.std.specs.Prelude.{◌≡◌};
ghost use Rattle.pb_affine.specs.Values.{is_at_least, is_at_most, is_from_on, is_up_to, IsNear, IsSmallIf};

use crate::Lin;

/// The ranks of one role whose index lies between two ends, for the N between two numbers. An end that is None holds.
#[derive(Clone, Copy, Default, PartialEq, Eq)]
pub struct Guard {
    /// The role's number.
    pub role: u32,
    /// The least index.
    pub low: Option<Lin>,
    /// The greatest index.
    pub high: Option<Lin>,
    /// The least N.
    pub from: Option<u32>,
    /// The greatest N.
    pub to: Option<u32>,
}

impl Guard {
    ghost use Rattle.pb_affine.specs.Values.{holds, IsSmallGuard};

    /// True where the role is the guard's, the index is at least `low` and at most `high`, and n at least `from` and
    /// at most `to`, with i for the variable. Takes no memory.
    pub fn holds(&self, n: i64, i: i64, role: u32, index: i64) -> bool
        requires small { IsSmallGuard self.now }
        requires n { IsNear n }
        requires i { IsNear i }
        ensures { result ≡ holds self.now n i role index }
    {
        role == self.role
            && is_at_least(index, self.low, n, i)
            && is_at_most(index, self.high, n, i)
            && is_from_on(n, self.from)
            && is_up_to(n, self.to)
    }
}

fn is_at_least(index: i64, low: Option<Lin>, n: i64, i: i64) -> bool
    requires low { IsSmallIf low }
    requires n { IsNear n }
    requires i { IsNear i }
    ensures { result ≡ is_at_least index low n i }
{
    match low {
        None => true,
        Some(low) => low.value(n, i) <= index,
    }
}

fn is_at_most(index: i64, high: Option<Lin>, n: i64, i: i64) -> bool
    requires high { IsSmallIf high }
    requires n { IsNear n }
    requires i { IsNear i }
    ensures { result ≡ is_at_most index high n i }
{
    match high {
        None => true,
        Some(high) => index <= high.value(n, i),
    }
}

fn is_from_on(n: i64, from: Option<u32>) -> bool
    ensures { result ≡ is_from_on n from }
{
    match from {
        None => true,
        Some(from) => i64::from(from) <= n,
    }
}

fn is_up_to(n: i64, to: Option<u32>) -> bool
    ensures { result ≡ is_up_to n to }
{
    match to {
        None => true,
        Some(to) => n <= i64::from(to),
    }
}
