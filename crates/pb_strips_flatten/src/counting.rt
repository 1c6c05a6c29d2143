ghost use Rattle.std.specs.Prelude.{◌≡◌, OnOk};
ghost use Rattle.pb_syntax.specs.Plain.{plain_statement};
ghost use Rattle.pb_strips_flatten.specs.Parts.{block_with};
ghost use Rattle.pb_strips_flatten.specs.Ends.{written, offered, behind, with_one, Counts, Adds};

use crate::count::Count;
use crate::output::{Offer, Output};
use crate::stop::Stop;
use pb_syntax::{Block, Statement};
use pb_text::{NoMemory, Place};
use std::alloc::Global;

impl Output {
    /// A block that begins behind so many statements.
    pub(crate) fn behind(alloc: Global, count: Count) -> Output
        ensures { written result ≡ behind count.n }
    {
        Output {
            list: Vec::new(alloc),
            count,
        }
    }

    /// Counts one more statement, which comes from this place.
    pub(crate) fn count_one(&mut self, place: Place) -> Result<(), Stop>
        ensures { Counts result place (written self.old) (written self.new) }
    {
        if self.count.n >= 4000 {
            return Err(Stop::TooMany(place));
        }
        self.count = Count {
            n: self.count.n + 1,
        };
        Ok(())
    }

    /// Counts and writes a statement without braces.
    pub(crate) fn add(&mut self, statement: Statement, place: Place) -> Result<(), Stop>
        ensures { Adds result (plain_statement statement) place (written self.old) (written self.new) }
    {
        self.count_one(place)?;
        self.list.push(statement)?;
        Ok(())
    }

    /// One more statement, with all that was counted behind it.
    pub(crate) fn close(&mut self, statement: Statement, count: Count) -> Result<(), NoMemory>
        ensures { OnOk result (written self.new ≡ with_one (written self.old) (plain_statement statement) count.n) }
    {
        self.list.push(statement)?;
        self.count = count;
        Ok(())
    }
}

impl Offer {
    /// One more branch, with all that was counted behind it.
    pub(crate) fn branch(&mut self, place: Place, inner: Output) -> Result<(), NoMemory>
        ensures { OnOk result (offered self.new ≡ with_one (offered self.old) (block_with place (written inner).list) inner.count.n) }
    {
        let Output { list, count } = inner;
        self.list.push(Block { place, list })?;
        self.count = count;
        Ok(())
    }
}
