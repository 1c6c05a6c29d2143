ghost use Rattle.std.specs.Prelude.{◌≤◌};

/// How many statements there are so far in the whole file.
#[derive(Clone, Copy)]
pub struct Count {
    pub n: u32,
    ghost few: { n ≤ 4000 },
}
