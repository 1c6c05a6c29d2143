ghost use Rattle.std.specs.Prelude.{◌≡◌};
ghost use Rattle.pb_do_syntax.specs.Names.{same};

use pb_text::Name;

/// The names of the loops around a place. The innermost is the first.
#[derive(Clone, Copy)]
pub enum Around<'a> {
    Nothing,
    Inside(Name, &'a Around<'a>),
}

impl Around<'_> {
    ghost use Rattle.pb_do_syntax.specs.Names.{is_named};
    ghost use Rattle.pb_do_faults.specs.Found.{names_of};

    /// Whether the name is one of these. Takes no memory.
    pub fn has(&self, name: &Name) -> bool
        ensures { result ≡ is_named name.now (names_of self.now) }
    {
        match self {
            Around::Nothing => false,
            Around::Inside(first, rest) => is_same(name, first) || rest.has(name),
        }
    }
}

/// Whether both names have the same bytes. Takes no memory.
pub fn is_same(a: &Name, b: &Name) -> bool
    ensures { result ≡ same a.now b.now }
{
    a.bytes() == b.bytes()
}
