//! What a line is read as. It is spelled once more and compared with the line, so these take more lines than are spelled.

ghost use Rattle.std.specs.Prelude.{◌≡◌};
ghost use Rattle.pb_cread_lines.specs.Guess.{one_rank, root_of, test_at, else_if_at, closing_at, root_makes_at, root_takes_at, opened_at, if_at, for_at, own_at, rare_at, chooses_at, assigns_at, takes_at, call_at, guess_at};
ghost use Rattle.pb_cread_lines.specs.Parts.{GivesTo, Gives};

use crate::cursor::{Cursor, Stop, narrow};
use crate::item::Item;
use crate::tables::Tables;
use pb_ctree::{Guard, Guards, Lin, Peer};
use std::alloc::Global;

/// The peer of which a guard says that it is the rank.
fn one_rank(role: u32, low: Option<Lin>) -> Option<Peer>
    ensures { result ≡ one_rank role low }
{
    match low {
        Some(at) => Some(Peer { role, at }),
        None => None,
    }
}

fn root_of(guards: &[Guard]) -> Option<Peer>
    ensures { result ≡ root_of guards.now }
{
    match guards {
        [] => None,
        [guard, ..] => one_rank(guard.role, guard.low),
    }
}

impl<'a> Cursor<'a> {
    #[tactic(auto, unfolding(crate::specs::Guess::test_at))]
    fn test(&mut self, alloc: Global) -> Result<(u32, Guards), Stop>
        ensures { GivesTo result self.new.rest.now (test_at self.old.rest.now) }
    {
        let label = self.number()?;
        if !self.strip(b" && (") {
            return Err(Stop::Unread);
        }
        let guards = self.cond(alloc)?;
        Ok((label, guards))
    }

    #[tactic(auto, unfolding(crate::specs::Guess::else_if_at))]
    fn else_if(&mut self, alloc: Global) -> Result<Item, Stop>
        ensures { Gives result (else_if_at self.old.rest.now) }
    {
        if self.strip(b"st.MPI_TAG == ") {
            let (label, guards) = self.test(alloc)?;
            return Ok(Item::ElseTestOpen { label, guards });
        }
        if self.strip(b"a == ") {
            let branch = self.number()?;
            return Ok(Item::ElsePickOpen { branch });
        }
        let guards = self.cond(alloc)?;
        Ok(Item::ElseIfOpen { guards })
    }

    #[tactic(auto, unfolding(crate::specs::Guess::closing_at))]
    fn closing(&mut self, alloc: Global) -> Result<Item, Stop>
        ensures { Gives result (closing_at self.old.rest.now) }
    {
        if self.strip(b" else if (") {
            return self.else_if(alloc);
        }
        if self.strip(b" else {") {
            return Ok(Item::ElseOpen);
        }
        Ok(Item::Close)
    }

    #[tactic(auto, unfolding(crate::specs::Guess::root_makes_at))]
    fn root_makes(&mut self, tables: &Tables, guards: &[Guard]) -> Result<Item, Stop>
        ensures { Gives result (root_makes_at tables.now guards.now self.old.rest.now) }
    {
        match root_of(guards) {
            Some(root) => {
                let label = self.name(&tables.labels)?;
                Ok(Item::RootMakes { root, label })
            }
            None => Err(Stop::Unread),
        }
    }

    #[tactic(auto, unfolding(crate::specs::Guess::root_takes_at))]
    fn root_takes(&mut self, tables: &Tables, guards: &[Guard]) -> Result<Item, Stop>
        ensures { Gives result (root_takes_at tables.now guards.now self.old.rest.now) }
    {
        match root_of(guards) {
            Some(root) => {
                let label = self.name(&tables.labels)?;
                Ok(Item::RootTakes { root, label })
            }
            None => Err(Stop::Unread),
        }
    }

    #[tactic(auto, unfolding(crate::specs::Guess::opened_at))]
    fn opened(&mut self, tables: &Tables, guards: Guards) -> Result<Item, Stop>
        ensures { Gives result (opened_at tables.now guards self.old.rest.now) }
    {
        if self.strip(b" make_") {
            return self.root_makes(tables, guards.list());
        }
        if self.strip(b" take_") {
            return self.root_takes(tables, guards.list());
        }
        Ok(Item::IfOpen { guards })
    }

    #[tactic(auto, unfolding(crate::specs::Guess::if_at))]
    fn opening(&mut self, alloc: Global, tables: &Tables) -> Result<Item, Stop>
        ensures { Gives result (if_at tables.now self.old.rest.now) }
    {
        if self.strip(b"st.MPI_TAG == ") {
            let (label, guards) = self.test(alloc)?;
            return Ok(Item::TestOpen { label, guards });
        }
        if self.strip(b"a == ") {
            let branch = self.number()?;
            return Ok(Item::PickOpen { branch });
        }
        let guards = self.cond(alloc)?;
        self.opened(tables, guards)
    }

    #[tactic(auto, unfolding(crate::specs::Guess::for_at))]
    fn for_line(&mut self) -> Result<Item, Stop>
        ensures { Gives result (for_at self.old.rest.now) }
    {
        let low = self.lin()?;
        if !self.strip(b"; i <= ") {
            return Err(Stop::Unread);
        }
        let high = self.lin()?;
        Ok(Item::ForOpen { low, high })
    }

    #[tactic(auto, unfolding(crate::specs::Guess::own_at))]
    fn own_line(&mut self) -> Result<Item, Stop>
        ensures { Gives result (own_at self.old.rest.now) }
    {
        let off = self.offset()?;
        let off = narrow(off)?;
        Ok(Item::OwnIs { off })
    }

    #[tactic(auto, unfolding(crate::specs::Guess::rare_at))]
    fn rare(&mut self) -> Result<Item, Stop>
        ensures { Gives result (rare_at self.old.rest.now) }
    {
        if self.strip(b"for (i = ") {
            return self.for_line();
        }
        if self.strip(b"i = I") {
            return self.own_line();
        }
        if self.strip(b"goto L") {
            let id = self.number()?;
            return Ok(Item::Goto { id });
        }
        if self.strip(b"L") {
            let id = self.number()?;
            return Ok(Item::LoopOpen { id });
        }
        Err(Stop::Unread)
    }

    #[tactic(auto, unfolding(crate::specs::Guess::chooses_at))]
    fn chooses(&mut self, tables: &Tables) -> Result<Item, Stop>
        ensures { Gives result (chooses_at tables.now self.old.rest.now) }
    {
        if !self.strip(b"_") {
            return Err(Stop::Unread);
        }
        let kernel = self.name(&tables.kernels)?;
        Ok(Item::Chooses { kernel })
    }

    #[tactic(auto, unfolding(crate::specs::Guess::assigns_at))]
    fn assigns(&mut self, tables: &Tables) -> Result<Item, Stop>
        ensures { Gives result (assigns_at tables.now self.old.rest.now) }
    {
        if self.strip(b"c") {
            return self.chooses(tables);
        }
        let branch = self.number()?;
        Ok(Item::Picks { branch })
    }

    #[tactic(auto, unfolding(crate::specs::Guess::takes_at))]
    fn takes(&mut self, tables: &Tables) -> Result<Item, Stop>
        ensures { Gives result (takes_at tables.now self.old.rest.now) }
    {
        let label = self.name(&tables.labels)?;
        let side = self.side()?;
        Ok(Item::Takes { label, side })
    }

    #[tactic(auto, unfolding(crate::specs::Guess::call_at))]
    fn call(&mut self, tables: &Tables) -> Result<Item, Stop>
        ensures { Gives result (call_at tables.now self.old.rest.now) }
    {
        if self.strip(b"make_") {
            let label = self.name(&tables.labels)?;
            return Ok(Item::Makes { label });
        }
        if self.strip(b"take_") {
            return self.takes(tables);
        }
        if self.strip(b"k_") {
            let kernel = self.name(&tables.kernels)?;
            return Ok(Item::Calls { kernel });
        }
        if self.strip(b"a = ") {
            return self.assigns(tables);
        }
        self.rare()
    }

    /// The line that the bytes may be.
    #[tactic(auto, unfolding(crate::specs::Guess::guess_at))]
    pub(crate) fn guess(&mut self, alloc: Global, tables: &Tables) -> Result<Item, Stop>
        ensures { Gives result (guess_at tables.now self.old.rest.now) }
    {
        if self.strip(b"MPI_") {
            return self.mpi(tables);
        }
        if self.strip(b"}") {
            return self.closing(alloc);
        }
        if self.strip(b"if (") {
            return self.opening(alloc, tables);
        }
        self.call(tables)
    }
}
