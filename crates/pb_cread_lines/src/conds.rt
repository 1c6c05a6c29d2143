//! Reads conditions, each with the parenthesis behind it.

ghost use Rattle.std.specs.Prelude.{◌≡◌, IfOk, ◌∷◌, []};
ghost use Rattle.pb_cread_lines.specs.Guess.{closed_at, others_at, several_at, cond_at};
ghost use Rattle.pb_cread_lines.specs.Parts.{GivesTo};

use crate::cursor::{Cursor, Stop};
use pb_ctree::{Guard, Guards, NoMemory};
use std::alloc::Global;

fn one_guard(alloc: Global, guard: Guard) -> Result<Guards, NoMemory>
    ensures { IfOk result (λ list. list ≡ guard ∷ []) }
{
    let mut list = Guards::new(alloc);
    list.push(guard)?;
    Ok(list)
}

impl<'a> Cursor<'a> {
    #[tactic(auto, unfolding(crate::specs::Guess::closed_at))]
    fn closed(&mut self) -> Result<Guard, Stop>
        ensures { GivesTo result self.new.rest.now (closed_at self.old.rest.now) }
    {
        let guard = self.guard()?;
        if !self.strip(b")") {
            return Err(Stop::Unread);
        }
        Ok(guard)
    }

    /// The guards that follow, as many as `most`, go behind those of the list.
    #[tactic(auto, using(crate::proofs::Rounds::another, crate::proofs::Rounds::unread, crate::proofs::Rounds::no_more, crate::proofs::Rounds::used_up))]
    fn others(&mut self, most: usize, list: Guards) -> Result<Guards, Stop>
        ensures { GivesTo result self.new.rest.now (others_at most list self.old.rest.now) }
    {
        let mut list = list;
        for _ in 0..most {
            if !self.strip(b" || (") {
                return Ok(list);
            }
            let guard = self.closed()?;
            list.push(guard)?;
        }
        Ok(list)
    }

    #[tactic(auto, unfolding(crate::specs::Guess::several_at))]
    fn several(&mut self, alloc: Global) -> Result<Guards, Stop>
        ensures { GivesTo result self.new.rest.now (several_at self.old.rest.now) }
    {
        let guard = self.closed()?;
        let list = one_guard(alloc, guard)?;
        let list = self.others(self.rest.len(), list)?;
        if !self.strip(b")") {
            return Err(Stop::Unread);
        }
        Ok(list)
    }

    #[tactic(auto, unfolding(crate::specs::Guess::cond_at))]
    pub(crate) fn cond(&mut self, alloc: Global) -> Result<Guards, Stop>
        ensures { GivesTo result self.new.rest.now (cond_at self.old.rest.now) }
    {
        if self.strip(b"(") {
            return self.several(alloc);
        }
        if self.strip(b")") {
            return Ok(Guards::new(alloc));
        }
        let guard = self.closed()?;
        let list = one_guard(alloc, guard)?;
        Ok(list)
    }
}
