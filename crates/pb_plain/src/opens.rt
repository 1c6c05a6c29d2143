ghost use Rattle.std.specs.Prelude.{◌≡◌, ◌≤◌, length};

/// The ids of the loops around, the innermost first.
#[derive(Clone, Copy)]
pub enum Opens<'a> {
    Top,
    Loop(u32, &'a Opens<'a>),
}

impl Opens<'_> {
    ghost use Rattle.pb_core_language.specs.FlatOf.{between};
    ghost use Rattle.pb_plain.specs.Loops.{ids_of};

    /// How many loops stand between here and the loop with this id. At most 64 loops are around.
    pub fn between(&self, id: u32) -> u64
        requires { length (ids_of self.now) ≤ 64 }
        ensures between { result ≡ between id (ids_of self.now) }
        ensures few { result ≤ length (ids_of self.now) }
    {
        match self {
            Opens::Top => 0,
            Opens::Loop(first, rest) => {
                if id == *first {
                    0
                } else {
                    rest.between(id) + 1
                }
            }
        }
    }
}
