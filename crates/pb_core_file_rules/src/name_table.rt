ghost use Rattle.std.specs.Prelude.{◌≡◌, ◌<◌, ◌^◌, ◌-◌, ◌++◌, [], ◌∷◌, length, OnOk};
ghost use Rattle.pb_core_language.specs.Meaning.{position_of};

use pb_text::{Name, Names, NoMemory};
use std::alloc::Global;

/// Distinct names, each known by its number.
#[derive(Drop)]
pub struct NameTable {
    pub names: Names,
    pub count: u32,
    ghost counted: { count ≡ length names },
}

impl NameTable {
    /// No names. Takes no memory.
    pub fn new(alloc: Global) -> NameTable
        ensures { result.names ≡ [] }
    {
        NameTable {
            names: Names::new(alloc),
            count: 0,
        }
    }

    /// The name's number, or that of the next name where it isn't there.
    #[tactic(auto, using(crate::proofs::Positions::there, crate::proofs::Positions::absent))]
    pub fn find(&self, name: &Name) -> u32
        ensures { result ≡ position_of name.now self.now.names }
    {
        match self.names.find(name) {
            Some(id) => id,
            None => self.count,
        }
    }

    /// Adds a name that isn't there.
    #[tactic(auto, using(crate::proofs::Positions::interned_last))]
    pub fn add(&mut self, name: Name) -> Result<(), NoMemory>
        requires absent { position_of name self.old.names ≡ length self.old.names }
        requires few { length self.old.names < 2 ^ 32 - 1 }
        ensures { OnOk result (self.new.names ≡ self.old.names ++ (name ∷ [])) }
    {
        self.names.intern(name)?;
        self.count += 1;
        Ok(())
    }
}
