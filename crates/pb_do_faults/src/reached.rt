ghost use Rattle.std.specs.Prelude.{◌≡◌, ◌≤◌, ◌<◌, [], length, OnOk, IfOk, map};
ghost use Rattle.pb_do_faults.specs.Search.{IsSeen, with_number, with_calls};
ghost use Rattle.pb_do_faults.specs.Cycles.{body_at};
ghost use Rattle.pb_do_faults.specs.Found.{body_calls};

use crate::call_site::{Body, CallSite};
use pb_text::NoMemory;
use std::alloc::Global;

/// The subprotocols that a search has come to, in the order in which it came to them.
#[derive(Drop)]
pub struct Reached {
    pub seen: Vec<bool>,
    pub order: Vec<usize>,
    ghost kept: { IsSeen seen.items order.items },
}

impl Reached {
    #[tactic(auto, using(crate::proofs::Searches::nothing_seen))]
    /// No subprotocols, of so many.
    pub fn none(alloc: Global, count: usize) -> Result<Reached, NoMemory>
        ensures { IfOk result (λ reached. (length reached.seen.items ≡ count) × (reached.order.items ≡ [])) }
    {
        Ok(Reached {
            seen: vec![in alloc; false; count]?,
            order: Vec::new(alloc),
        })
    }

    #[tactic(auto, using(crate::proofs::Searches::one_more_seen, crate::proofs::Searches::number_new, crate::proofs::Searches::number_seen, crate::proofs::Searches::number_past))]
    /// Comes to the subprotocol with this number, unless the search was there.
    pub fn add(&mut self, i: usize) -> Result<(), NoMemory>
        ensures size { OnOk result (length self.new.seen.items ≡ length self.old.seen.items) }
        ensures order { OnOk result (self.new.order.items ≡ with_number (length self.old.seen.items) self.old.order.items i) }
    {
        if i < self.seen.len() && !self.seen[i] {
            self.order.push(i)?;
            self.seen[i] = true;
        }
        Ok(())
    }

    fn add_calls(&mut self, calls: &[CallSite]) -> Result<(), NoMemory>
        ensures size { OnOk result (length self.new.seen.items ≡ length self.old.seen.items) }
        ensures order { OnOk result (self.new.order.items ≡ with_calls (length self.old.seen.items) self.old.order.items calls.now) }
    {
        for call in calls {
            if let Some(i) = call.callee {
                self.add(i as usize)?;
            }
        }
        Ok(())
    }

    /// Comes to all that the subprotocol with this number calls.
    pub fn visit(&mut self, bodies: &[Body], i: usize) -> Result<(), NoMemory>
        ensures size { OnOk result (length self.new.seen.items ≡ length self.old.seen.items) }
        ensures order { OnOk result (self.new.order.items ≡ with_calls (length self.old.seen.items) self.old.order.items (body_at (map body_calls bodies.now) i)) }
    {
        match bodies.get(i) {
            Some(body) => self.add_calls(&body.calls),
            None => Ok(()),
        }
    }
}
