ghost use Rattle.std.specs.Prelude.{◌≡◌, ◌≤ℤ◌, ◌*ℤ◌, pos, negsuc};

/// A line from a number on: it starts with `start`, and grows by `slope` with each number.
#[derive(Clone, Copy)]
pub struct Ray {
    pub start: i64,
    pub slope: i64,
    ghost start_low: { negsuc 3999999999999999999 ≤ℤ start },
    ghost start_high: { start ≤ℤ pos 4000000000000000000 },
    ghost slope_low: { negsuc 4099999 ≤ℤ slope },
    ghost slope_high: { slope ≤ℤ pos 4100000 },
}

impl Ray {
    ghost use Rattle.pb_cost_pieces.specs.Lines.{along};

    /// Its value so many numbers later.
    pub fn value_after(self, steps: i64) -> i64
        requires low { pos 0 ≤ℤ steps }
        requires high { steps ≤ℤ pos 900000000000 }
        ensures { result ≡ along self.start self.slope (pos 0) steps }
    {
        self.start + grown(self.slope, steps)
    }
}

/// By how much a line grows in so many numbers.
#[tactic(auto, using(crate::proofs::Products::product_low, crate::proofs::Products::product_high))]
fn grown(slope: i64, steps: i64) -> i64
    requires slope_low { negsuc 4099999 ≤ℤ slope }
    requires slope_high { slope ≤ℤ pos 4100000 }
    requires low { pos 0 ≤ℤ steps }
    requires high { steps ≤ℤ pos 900000000000 }
    ensures is { result ≡ slope *ℤ steps }
    ensures least { negsuc 3689999999999999999 ≤ℤ result }
    ensures most { result ≤ℤ pos 3690000000000000000 }
{
    slope * steps
}
