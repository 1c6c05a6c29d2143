//! Reads buffers, payloads and operations.

ghost use Rattle.std.specs.Prelude.{◌≡◌};
ghost use Rattle.pb_cread_lines.specs.Guess.{unsigned_of, int_at, uint_at, words_at, held_at, op_at, reduced_words_at, reduced_at, buffer_at, side_at};
ghost use Rattle.pb_cread_lines.specs.Parts.{GivesTo, Gives};

use crate::cursor::{Cursor, Stop};
use crate::item::Side;
use crate::tables::Tables;
use pb_ctree::{Op, Payload};

fn unsigned_of(count: u32) -> Payload
    ensures { result ≡ unsigned_of count }
{
    if count == 0 {
        return Payload::Unit;
    }
    Payload::Uint32(count)
}

impl<'a> Cursor<'a> {
    #[tactic(auto, unfolding(crate::specs::Guess::int_at))]
    fn int(&mut self) -> Result<Payload, Stop>
        ensures { GivesTo result self.new.rest.now (int_at self.old.rest.now) }
    {
        let count = self.number()?;
        if !self.strip(b", MPI_INT32_T, ") {
            return Err(Stop::Unread);
        }
        Ok(Payload::Int32(count))
    }

    #[tactic(auto, unfolding(crate::specs::Guess::uint_at))]
    fn uint(&mut self) -> Result<Payload, Stop>
        ensures { GivesTo result self.new.rest.now (uint_at self.old.rest.now) }
    {
        let count = self.number()?;
        if !self.strip(b", MPI_UINT32_T, ") {
            return Err(Stop::Unread);
        }
        Ok(unsigned_of(count))
    }

    /// A buffer, its count and its type.
    #[tactic(auto, unfolding(crate::specs::Guess::words_at))]
    pub(crate) fn words(&mut self) -> Result<Payload, Stop>
        ensures { GivesTo result self.new.rest.now (words_at self.old.rest.now) }
    {
        if self.strip(b"is, ") {
            return self.int();
        }
        if self.strip(b"ir, ") {
            return self.int();
        }
        if self.strip(b"us, ") {
            return self.uint();
        }
        if self.strip(b"ur, ") {
            return self.uint();
        }
        Err(Stop::Unread)
    }

    /// A label with the payload that is read.
    #[tactic(auto, unfolding(crate::specs::Guess::held_at))]
    pub(crate) fn held(&mut self, tables: &Tables) -> Result<u32, Stop>
        ensures { GivesTo result self.new.rest.now (held_at tables.now self.old.rest.now) }
    {
        let payload = self.words()?;
        match tables.payloads.find(payload) {
            Some(label) => Ok(label),
            None => Err(Stop::Unread),
        }
    }

    #[tactic(auto, unfolding(crate::specs::Guess::op_at))]
    fn op(&mut self) -> Result<Op, Stop>
        ensures { GivesTo result self.new.rest.now (op_at self.old.rest.now) }
    {
        if self.strip(b"MPI_MIN") {
            return Ok(Op::Min);
        }
        if self.strip(b"MPI_MAX") {
            return Ok(Op::Max);
        }
        if self.strip(b"MPI_SUM") {
            return Ok(Op::Sum);
        }
        Err(Stop::Unread)
    }

    #[tactic(auto, unfolding(crate::specs::Guess::reduced_words_at))]
    fn reduced_words(&mut self, tables: &Tables) -> Result<(u32, Op), Stop>
        ensures { GivesTo result self.new.rest.now (reduced_words_at tables.now self.old.rest.now) }
    {
        let label = self.held(tables)?;
        let op = self.op()?;
        Ok((label, op))
    }

    /// The two buffers of a reduction, with what stands behind them.
    #[tactic(auto, unfolding(crate::specs::Guess::reduced_at))]
    pub(crate) fn reduced(&mut self, tables: &Tables) -> Result<(u32, Op), Stop>
        ensures { GivesTo result self.new.rest.now (reduced_at tables.now self.old.rest.now) }
    {
        if self.strip(b"is, ") {
            return self.reduced_words(tables);
        }
        if self.strip(b"us, ") {
            return self.reduced_words(tables);
        }
        Err(Stop::Unread)
    }

    #[tactic(auto, unfolding(crate::specs::Guess::buffer_at))]
    fn buffer(&mut self) -> Result<Side, Stop>
        ensures { Gives result (buffer_at self.old.rest.now) }
    {
        if self.strip(b"is") {
            return Ok(Side::Outgoing);
        }
        if self.strip(b"us") {
            return Ok(Side::Outgoing);
        }
        if self.strip(b"ir") {
            return Ok(Side::Incoming);
        }
        if self.strip(b"ur") {
            return Ok(Side::Incoming);
        }
        Err(Stop::Unread)
    }

    /// The side of the buffer that a kernel function is called on.
    #[tactic(auto, unfolding(crate::specs::Guess::side_at))]
    pub(crate) fn side(&mut self) -> Result<Side, Stop>
        ensures { Gives result (side_at self.old.rest.now) }
    {
        if !self.strip(b"(N, R, I, ") {
            return Err(Stop::Unread);
        }
        self.buffer()
    }
}
