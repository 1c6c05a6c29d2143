ghost use Rattle.std.specs.Prelude.{◌≡◌, length, nat_eq, nat_lt};
ghost use Rattle.std.specs.List.{list_any};

/// The ids of the loops around, the innermost first.
#[derive(Clone, Copy)]
pub enum Opens<'a> {
    Top,
    Loop(u32, &'a Opens<'a>),
}

impl Opens<'_> {
    ghost use Rattle.pb_core_sound.specs.View.{ids_of};

    /// Whether a loop around has this id.
    pub fn has(&self, id: u32) -> bool
        ensures { result ≡ list_any (nat_eq id) (ids_of self.now) }
    {
        match self {
            Opens::Top => false,
            Opens::Loop(first, rest) => id == *first || rest.has(id),
        }
    }

    /// Whether there are fewer than `most` loops around.
    pub fn are_fewer(&self, most: u32) -> bool
        ensures { result ≡ nat_lt (length (ids_of self.now)) most }
    {
        match self {
            Opens::Top => 0 < most,
            Opens::Loop(_, rest) => 0 < most && rest.are_fewer(most - 1),
        }
    }
}
