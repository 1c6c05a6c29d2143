ghost use Rattle.std.specs.Prelude.{◌≡◌};
ghost use Rattle.pb_core_language.specs.Sound.{is_small, is_over_n, is_bound, is_range, reaches};

use pb_core_language::{Base, Lin, NRange};

/// Whether the offset lies within 100,000 of zero.
pub fn is_small(off: i32) -> bool
    ensures { result ≡ is_small off }
{
    -100_000 <= off && off <= 100_000
}

/// Whether the base isn't the variable.
pub fn is_over_n(base: Base) -> bool
    ensures { result ≡ is_over_n base }
{
    match base {
        Base::Fixed | Base::Param => true,
        Base::Var => false,
    }
}

/// Whether the lin can be an end of a role or a foreach.
pub fn is_bound(lin: Lin) -> bool
    ensures { result ≡ is_bound lin }
{
    is_over_n(lin.base) && is_small(lin.off)
}

/// Whether the range has some N from 1 on, and its least N is at most 100,000.
pub fn is_range(range: NRange) -> bool
    ensures { result ≡ is_range range }
{
    0 < range.low && range.low <= 100_000 && reaches(range.low, range.high)
}

fn reaches(low: u32, high: Option<u32>) -> bool
    ensures { result ≡ reaches low high }
{
    match high {
        None => true,
        Some(high) => low <= high,
    }
}
