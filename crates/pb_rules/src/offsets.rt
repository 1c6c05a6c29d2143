ghost use Rattle.std.specs.Prelude.{◌≡◌, ◌++◌, [], map, true, OnOk, IfOk};
ghost use Rattle.std.specs.Ordering.{int_eq};
ghost use Rattle.pb_affine.specs.declared.lin.Base.TheVariants.{Fixed, Param};
ghost use Rattle.pb_core_language.specs.Sound.{is_over_n};
ghost use Rattle.pb_rules.specs.CutLists.{lin_at, listed, IsWith, IsOffsetWith, AreApart};

use indexmap::IndexSet;
use pb_affine::{Base, Lin};
use pb_text::NoMemory;
use std::alloc::Global;

/// The offsets of cuts, each once: of those that are numbers, and of those that go with N.
#[derive(Drop)]
pub struct Offsets {
    fixed: IndexSet<i32>,
    moving: IndexSet<i32>,
}

impl Offsets {
    /// No offsets. Takes no memory.
    pub fn new(alloc: Global) -> Offsets
        ensures { listed result ≡ [] }
    {
        Offsets {
            fixed: IndexSet::new(alloc),
            moving: IndexSet::new(alloc),
        }
    }

    /// Adds the cut's offset to those of its base.
    pub fn add(&mut self, cut: Lin) -> Result<(), NoMemory>
        requires { is_over_n cut.base ≡ true }
        ensures { OnOk result (IsWith cut (listed self.old) (listed self.new)) }
    {
        match cut.base {
            Base::Fixed => add_offset(&mut self.fixed, cut),
            Base::Param => add_offset(&mut self.moving, cut),
            Base::Var => unreachable!(),
        }
    }

    #[tactic(auto, using(crate::proofs::CutSets::listed_apart))]
    /// The cuts with these offsets.
    pub fn cuts(&self, alloc: Global) -> Result<Vec<Lin>, NoMemory>
        ensures list { IfOk result (λ v. v.items ≡ listed self.now) }
        ensures once { IfOk result (λ v. AreApart v.items) }
    {
        let mut cuts = Vec::new(alloc);
        push_all(Base::Fixed, self.fixed.as_slice(), &mut cuts)?;
        push_all(Base::Param, self.moving.as_slice(), &mut cuts)?;
        Ok(cuts)
    }
}

#[tactic(auto, using(crate::proofs::CutSets::inserted))]
fn add_offset(offsets: &mut IndexSet<i32>, cut: Lin) -> Result<(), NoMemory>
    ensures { OnOk result (IsOffsetWith cut.off offsets.old.keys offsets.new.keys) }
{
    match offsets.insert(cut.off) {
        Ok(_) => Ok(()),
        Err(_) => Err(NoMemory),
    }
}

fn push_all(base: Base, offsets: &[i32], cuts: &mut Vec<Lin>) -> Result<(), NoMemory>
    ensures { OnOk result (cuts.new.items ≡ cuts.old.items ++ map (lin_at base) offsets.now) }
{
    for off in offsets {
        cuts.push(Lin { base, off: *off })?;
    }
    Ok(())
}
