ghost use Rattle.std.specs.Prelude.{◌≡◌, ◌≤ℤ◌, ◌<ℤ◌, pos, negsuc};

use crate::ray::Ray;

/// Numbers from `from` to `to`, on which a function is the line that starts with `start` and grows by `slope` with each
/// number.
#[derive(Clone, Copy)]
pub struct Stretch {
    pub from: i64,
    pub to: i64,
    pub start: i64,
    pub slope: i64,
    ghost from_low: { pos 0 ≤ℤ from },
    ghost to_low: { from ≤ℤ to },
    ghost to_high: { to ≤ℤ pos 900000000000 },
    ghost start_low: { pos 0 ≤ℤ start },
    ghost start_high: { start ≤ℤ pos 4000000000000000000 },
    ghost slope_low: { negsuc 4099999 ≤ℤ slope },
    ghost slope_high: { slope ≤ℤ pos 4100000 },
}

impl Stretch {
    ghost use Rattle.pb_cost_pieces.specs.Lines.{value_at};

    /// The numbers from `from` to `to`, with this line; a number alone has the slope 0.
    pub fn new(from: i64, to: i64, start: i64, slope: i64) -> Stretch
        requires from_low { pos 0 ≤ℤ from }
        requires to_low { from ≤ℤ to }
        requires to_high { to ≤ℤ pos 900000000000 }
        requires start_low { pos 0 ≤ℤ start }
        requires start_high { start ≤ℤ pos 4000000000000000000 }
        requires slope_low { from <ℤ to → negsuc 4099999 ≤ℤ slope }
        requires slope_high { from <ℤ to → slope ≤ℤ pos 4100000 }
        ensures from { result.from ≡ from }
        ensures to { result.to ≡ to }
        ensures start { result.start ≡ start }
        ensures single { from ≡ to → result.slope ≡ pos 0 }
        ensures slope { from <ℤ to → result.slope ≡ slope }
    {
        Stretch {
            from,
            to,
            start,
            slope: own_slope(from, to, slope),
        }
    }

    /// Its line at `n`, which isn't before its first number.
    pub fn value(&self, n: i64) -> i64
        requires low { self.now.from ≤ℤ n }
        requires high { n ≤ℤ pos 900000000000 }
        ensures { result ≡ value_at self.now n }
    {
        let ray = Ray {
            start: self.start,
            slope: self.slope,
        };
        ray.value_after(n - self.from)
    }

    /// Its line from `n` on.
    pub fn ray_at(&self, n: i64) -> Ray
        requires low { self.now.from ≤ℤ n }
        requires high { n ≤ℤ pos 900000000000 }
        requires least { pos 0 ≤ℤ value_at self.now n }
        requires most { value_at self.now n ≤ℤ pos 4000000000000000000 }
        ensures start { result.start ≡ value_at self.now n }
        ensures slope { result.slope ≡ self.now.slope }
    {
        Ray {
            start: self.value(n),
            slope: self.slope,
        }
    }
}

/// The slope of a stretch: 0 where it has one number alone.
fn own_slope(from: i64, to: i64, slope: i64) -> i64
    requires to_low { from ≤ℤ to }
    requires slope_low { from <ℤ to → negsuc 4099999 ≤ℤ slope }
    requires slope_high { from <ℤ to → slope ≤ℤ pos 4100000 }
    ensures low { negsuc 4099999 ≤ℤ result }
    ensures high { result ≤ℤ pos 4100000 }
    ensures single { from ≡ to → result ≡ pos 0 }
    ensures slope { from <ℤ to → result ≡ slope }
{
    if from == to { 0 } else { slope }
}
