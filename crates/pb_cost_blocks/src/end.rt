ghost use Rattle.std.specs.Prelude.{◌≤ℤ◌, pos, negsuc};

/// An end of a foreach: what it is at a span's first number, and by how much it grows with each number.
#[derive(Clone, Copy)]
pub(crate) struct End {
    pub(crate) start: i64,
    pub(crate) slope: i64,
    ghost start_low: { negsuc 99999 ≤ℤ start },
    ghost start_high: { start ≤ℤ pos 900000100000 },
    ghost slope_low: { pos 0 ≤ℤ slope },
    ghost slope_high: { slope ≤ℤ pos 1 },
}
