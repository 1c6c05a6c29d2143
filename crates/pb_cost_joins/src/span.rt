ghost use Rattle.std.specs.Prelude.{◌≤ℤ◌, pos};

/// The numbers from `from` to `to`, from 0 to 900,000,000,000.
#[derive(Clone, Copy)]
pub struct Span {
    pub from: i64,
    pub to: i64,
    ghost from_low: { pos 0 ≤ℤ from },
    ghost to_low: { from ≤ℤ to },
    ghost to_high: { to ≤ℤ pos 900000000000 },
}
