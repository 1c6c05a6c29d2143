ghost use Rattle.std.specs.Prelude.{◌≡◌, ◌==◌};

/// Where a statement stands in a loop: how many loops stand between.
#[derive(Clone, Copy)]
pub enum Within<'a> {
    /// In the loop's own body.
    Body,
    /// One loop further in.
    Deeper(&'a Within<'a>),
}

impl Within<'_> {
    ghost use Rattle.pb_plain_rules.specs.Depth.{depth_of};

    /// Whether so many loops stand between.
    pub fn is_behind(&self, between: u64) -> bool
        ensures { result ≡ (between == depth_of self.now) }
    {
        match self {
            Within::Body => between == 0,
            Within::Deeper(around) => between != 0 && around.is_behind(between - 1),
        }
    }
}
