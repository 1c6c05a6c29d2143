ghost use Rattle.std.specs.Prelude.{◌≡◌, ◌<◌, ◌++◌, [], ◌∷◌, ◌^◌, ◌-◌, length, slice_get, Some, None, position, IfOk, MatchOption, MatchResult};
ghost use Rattle.pb_text.specs.Tables.{IsInterned, IsTable, position_of};

use crate::{Name, NoMemory};
use indexmap::IndexSet;
use std::alloc::Global;
use std::marker::Model;

/// A list of distinct names, each known by its position.
#[derive(Drop)]
pub struct Names {
    set: IndexSet<Name>,
}

impl Model for Names {
    ghost use Rattle.std.specs.Prelude.{List, ℕ};
    ghost use Rattle.pb_text.specs.Tables.{IsTable};

    ghost Value = { List (List ℕ) };

    ghost view = { λ n. n.set.keys };

    ghost invariant = { λ n. IsTable n.set.keys };
}

impl Names {
    /// No names. Takes no memory.
    pub fn new(alloc: Global) -> Names
        ensures { result ≡ [] }
    {
        Names {
            set: IndexSet::new(alloc),
        }
    }

    /// The name's position; a new name goes last. After `NoMemory` all is as before.
    pub fn intern(&mut self, name: Name) -> Result<u32, NoMemory>
        requires { length self.old < 2 ^ 32 - 1 }
        ensures interned { MatchResult result (λ id. IsInterned self.old name id self.new) (λ _. self.new ≡ self.old) }
        ensures there { IfOk result (λ id. slice_get self.new id ≡ Some name) }
        ensures within { IfOk result (λ id. id < length self.new) }
        ensures table { IsTable self.new }
    {
        match self.set.insert_full(name) {
            Ok((id, _)) => Ok(id as u32),
            Err(_) => Err(NoMemory),
        }
    }

    /// The name's position. None exactly where it isn't there. Takes no memory.
    pub fn find(&self, name: &Name) -> Option<u32>
        ensures found { result ≡ position_of name.now self.now }
        ensures table { IsTable self.now }
    {
        match self.set.get_index_of(name) {
            Some(id) => Some(id as u32),
            None => None,
        }
    }

    /// The name at a position. Takes no memory.
    pub fn name(&self, id: u32) -> Name
        requires { id < length self.now }
        ensures { slice_get self.now id ≡ Some result }
    {
        match self.set.get_index(id as usize) {
            Some(name) => *name,
            None => unreachable!(),
        }
    }
}
