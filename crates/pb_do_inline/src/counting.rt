ghost use Rattle.std.specs.Prelude.{◌≡◌, ◌<◌, true, OnOk, IfOk};
ghost use Rattle.pb_syntax.specs.Plain.{plain_statement};
ghost use Rattle.pb_do_syntax.specs.Inlining.{over_limit, with_statement, with_branch, block_behind};
ghost use Rattle.pb_do_inline.specs.Ends.{written, offered, Counts, closed_with};

use crate::count::Count;
use crate::halt::Halt;
use crate::output::{Offer, Output};
use pb_syntax::{Block, Statement};
use pb_text::{NoMemory, Place, Quantity};
use std::alloc::Global;

// The limit that one more statement passes: of braces, if it opens one and none may be opened, or of statements.
fn over_limit(opens: bool, left: usize, count: Count) -> Option<Quantity>
    ensures { result ≡ over_limit opens left count.n }
{
    if opens && left == 0 {
        return Some(Quantity::Nesting);
    }
    if count.n >= 4000 {
        return Some(Quantity::Statements);
    }
    None
}

impl Output {
    /// A block that begins behind so many statements and calls.
    pub(crate) fn behind(alloc: Global, count: Count) -> Output
        ensures { written result ≡ block_behind count.n }
    {
        Output {
            list: Vec::new(alloc),
            count,
        }
    }

    /// Counts one more, which may open a brace where so many may still be opened.
    pub(crate) fn count_one(&mut self, opens: bool, left: usize, place: Place) -> Result<(), Halt>
        ensures counts { Counts result (over_limit opens left self.old.count.n) place (written self.old) (written self.new) }
        ensures room { IfOk result (λ _. opens ≡ true → 0 < left) }
        ensures grows { IfOk result (λ _. self.old.count.n < self.new.count.n) }
    {
        if let Some(limit) = over_limit(opens, left, self.count) {
            return Err(Halt::TooMany(limit, place));
        }
        self.count = Count {
            n: self.count.n + 1,
        };
        Ok(())
    }

    /// One more statement.
    pub(crate) fn push(&mut self, statement: Statement) -> Result<(), NoMemory>
        ensures { OnOk result (written self.new ≡ with_statement (written self.old) (plain_statement statement)) }
    {
        self.list.push(statement)?;
        Ok(())
    }

    /// One more statement, with all that was counted behind it.
    pub(crate) fn close(&mut self, statement: Statement, count: Count) -> Result<(), NoMemory>
        ensures { OnOk result (written self.new ≡ closed_with (written self.old) (plain_statement statement) count.n) }
    {
        self.list.push(statement)?;
        self.count = count;
        Ok(())
    }
}

impl Offer {
    /// One more branch, with all that was counted behind it.
    pub(crate) fn branch(&mut self, place: Place, inner: Output) -> Result<(), NoMemory>
        ensures branch { OnOk result (offered self.new ≡ with_branch (offered self.old) place (written inner)) }
        ensures count { OnOk result (self.new.count ≡ inner.count) }
    {
        let Output { list, count } = inner;
        self.list.push(Block { place, list })?;
        self.count = count;
        Ok(())
    }
}
