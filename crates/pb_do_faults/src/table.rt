ghost use Rattle.std.specs.Prelude.{◌≡◌, ◌<◌, ◌^◌, ◌-◌, ◌++◌, [], ◌∷◌, false, if◌then◌else◌, length, OnOk, IfErr};
ghost use Rattle.pb_do_syntax.specs.Names.{is_named};
ghost use Rattle.pb_do_faults.specs.Found.{IsTwice};

use crate::fault::CallFault;
use pb_text::{Names, NoMemory, Spot};
use std::alloc::Global;

/// Distinct names, in the order in which they came.
#[derive(Drop)]
pub struct Table {
    pub names: Names,
    pub count: u32,
    ghost counted: { count ≡ length names },
}

impl Table {
    /// No names. Takes no memory.
    pub fn new(alloc: Global) -> Table
        ensures { result.names ≡ [] }
    {
        Table {
            names: Names::new(alloc),
            count: 0,
        }
    }

    #[tactic(auto, using(crate::proofs::Known::found_if))]
    fn has(&self, spot: &Spot) -> bool
        ensures { result ≡ is_named spot.now.name self.now.names }
    {
        self.names.find(&spot.name).is_some()
    }

    // Adds a name that isn't there.
    #[tactic(auto, using(crate::proofs::Known::interned_last))]
    fn push(&mut self, spot: &Spot) -> Result<(), NoMemory>
        requires { is_named spot.now.name self.old.names ≡ false }
        ensures { OnOk result (self.new.names ≡ self.old.names ++ (spot.now.name ∷ [])) }
    {
        if self.count == u32::MAX {
            return Err(NoMemory);
        }
        self.names.intern(spot.name)?;
        self.count += 1;
        Ok(())
    }

    /// Adds a name, unless it stands there already.
    pub fn add(&mut self, spot: &Spot) -> Result<(), CallFault>
        ensures new { OnOk result (is_named spot.now.name self.old.names ≡ false) }
        ensures added { OnOk result (self.new.names ≡ self.old.names ++ (spot.now.name ∷ [])) }
        ensures twice { IfErr result (λ e. IsTwice (if is_named spot.now.name self.old.names then spot.now.place ∷ [] else []) e) }
    {
        if self.has(spot) {
            return Err(CallFault::Twice(spot.place));
        }
        self.push(spot)?;
        Ok(())
    }
}
