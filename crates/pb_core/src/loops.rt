ghost use Rattle.std.specs.Prelude.{◌≡◌};

use pb_core_file_rules::is_same;
use pb_text::Name;

/// The names and the ids of the loops around a place. The innermost is the first.
#[derive(Clone, Copy)]
pub enum Loops<'a> {
    Nothing,
    Inside(Name, u32, &'a Loops<'a>),
}

impl Loops<'_> {
    ghost use Rattle.pb_core_language.specs.Meaning.{id_of};
    ghost use Rattle.pb_core.specs.Building.{open_of};

    /// The id of the innermost loop of the name. 0 where there is none.
    pub fn id(&self, name: &Name) -> u32
        ensures { result ≡ id_of name.now (open_of self.now) }
    {
        match self {
            Loops::Nothing => 0,
            Loops::Inside(first, id, rest) => {
                if is_same(name, first) {
                    *id
                } else {
                    rest.id(name)
                }
            }
        }
    }
}
