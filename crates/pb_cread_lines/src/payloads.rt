use crate::NoMemory;
use indexmap::IndexMap;
use pb_ctree::Payload;
use std::alloc::Global;

/// A label for each payload.
#[derive(Drop)]
pub(crate) struct Payloads {
    unit: Option<u32>,
    int32: IndexMap<u32, u32>,
    uint32: IndexMap<u32, u32>,
}

impl Payloads {
    ghost use Rattle.std.specs.Prelude.{◌≡◌, ◌⊎◌, OnOk, Some, None, nat_eq};
    ghost use Rattle.indexmap.specs.IndexMap.{get};
    ghost use Rattle.pb_syntax.specs.declared.tree.Payload.{Payload};
    ghost use Rattle.pb_cread_lines.specs.Head.{holding};

    pub(crate) fn new(alloc: Global) -> Payloads
        ensures { (q : Payload) → holding result q ≡ None }
    {
        Payloads {
            unit: None,
            int32: IndexMap::new(alloc),
            uint32: IndexMap::new(alloc),
        }
    }

    /// The label is the payload's from now on.
    pub(crate) fn put(&mut self, payload: Payload, label: u32) -> Result<(), NoMemory>
        ensures here { OnOk result (holding self.new payload ≡ Some label) }
        ensures others { OnOk result ((q : Payload) → (holding self.new q ≡ holding self.old q) ⊎ ((q ≡ payload) × (holding self.new q ≡ Some label))) }
    {
        match payload {
            Payload::Unit => {
                self.unit = Some(label);
                Ok(())
            }
            Payload::Int32(count) => put_count(&mut self.int32, count, label),
            Payload::Uint32(count) => put_count(&mut self.uint32, count, label),
        }
    }

    /// A label with the payload.
    pub(crate) fn find(&self, payload: Payload) -> Option<u32>
        ensures { result ≡ holding self.now payload }
    {
        match payload {
            Payload::Unit => self.unit,
            Payload::Int32(count) => self.int32.get(&count).copied(),
            Payload::Uint32(count) => self.uint32.get(&count).copied(),
        }
    }
}

ghost use Rattle.std.specs.Prelude.{◌≡◌, OnOk, Some, nat_eq, ℕ, if◌then◌else◌};
ghost use Rattle.indexmap.specs.IndexMap.{get};

fn put_count(map: &mut IndexMap<u32, u32>, count: u32, label: u32) -> Result<(), NoMemory>
    ensures { OnOk result ((q : ℕ) → get nat_eq map.new q ≡ (if nat_eq q count then Some label else get nat_eq map.old q)) }
{
    match map.insert(count, label) {
        Ok(_) => Ok(()),
        Err(_) => Err(NoMemory),
    }
}
