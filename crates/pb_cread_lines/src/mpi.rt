//! What a line that calls MPI is read as.

ghost use Rattle.std.specs.Prelude.{◌≡◌};
ghost use Rattle.pb_cread_lines.specs.Guess.{sends_at, receives_at, broadcasts_at, reduces_at, allreduces_at, collective_at, mpi_at};
ghost use Rattle.pb_cread_lines.specs.Parts.{Gives};

use crate::cursor::{Cursor, Stop};
use crate::item::Item;
use crate::tables::Tables;

impl<'a> Cursor<'a> {
    #[tactic(auto, unfolding(crate::specs::Guess::sends_at))]
    fn sends(&mut self, tables: &Tables) -> Result<Item, Stop>
        ensures { Gives result (sends_at tables.now self.old.rest.now) }
    {
        self.words()?;
        let to = self.peer(tables)?;
        if !self.strip(b"), ") {
            return Err(Stop::Unread);
        }
        let label = self.number()?;
        Ok(Item::Sends { label, to })
    }

    #[tactic(auto, unfolding(crate::specs::Guess::receives_at))]
    fn receives(&mut self, tables: &Tables) -> Result<Item, Stop>
        ensures { Gives result (receives_at tables.now self.old.rest.now) }
    {
        self.words()?;
        let from = self.peer(tables)?;
        if !self.strip(b"), ") {
            return Err(Stop::Unread);
        }
        let label = self.number()?;
        Ok(Item::Receives { label, from })
    }

    #[tactic(auto, unfolding(crate::specs::Guess::broadcasts_at))]
    fn broadcasts(&mut self, tables: &Tables) -> Result<Item, Stop>
        ensures { Gives result (broadcasts_at tables.now self.old.rest.now) }
    {
        let label = self.held(tables)?;
        let root = self.peer(tables)?;
        Ok(Item::Broadcasts { label, root })
    }

    #[tactic(auto, unfolding(crate::specs::Guess::reduces_at))]
    fn reduces(&mut self, tables: &Tables) -> Result<Item, Stop>
        ensures { Gives result (reduces_at tables.now self.old.rest.now) }
    {
        let (label, op) = self.reduced(tables)?;
        if !self.strip(b", ") {
            return Err(Stop::Unread);
        }
        let root = self.peer(tables)?;
        Ok(Item::Reduces { label, op, root })
    }

    #[tactic(auto, unfolding(crate::specs::Guess::allreduces_at))]
    fn allreduces(&mut self, tables: &Tables) -> Result<Item, Stop>
        ensures { Gives result (allreduces_at tables.now self.old.rest.now) }
    {
        let (label, op) = self.reduced(tables)?;
        Ok(Item::Allreduces { label, op })
    }

    #[tactic(auto, unfolding(crate::specs::Guess::collective_at))]
    fn collective(&mut self, tables: &Tables) -> Result<Item, Stop>
        ensures { Gives result (collective_at tables.now self.old.rest.now) }
    {
        if self.strip(b"Bcast(") {
            return self.broadcasts(tables);
        }
        if self.strip(b"Reduce(") {
            return self.reduces(tables);
        }
        if self.strip(b"Allreduce(") {
            return self.allreduces(tables);
        }
        if self.strip(b"Barrier") {
            return Ok(Item::Barrier);
        }
        Err(Stop::Unread)
    }

    #[tactic(auto, unfolding(crate::specs::Guess::mpi_at))]
    pub(crate) fn mpi(&mut self, tables: &Tables) -> Result<Item, Stop>
        ensures { Gives result (mpi_at tables.now self.old.rest.now) }
    {
        if self.strip(b"Send(") {
            return self.sends(tables);
        }
        if self.strip(b"Recv(") {
            return self.receives(tables);
        }
        if self.strip(b"Probe(") {
            let from = self.peer(tables)?;
            return Ok(Item::Probe { from });
        }
        if self.strip(b"Abort") {
            return Ok(Item::Aborts);
        }
        self.collective(tables)
    }
}
