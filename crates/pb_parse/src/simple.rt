ghost use Rattle.std.specs.Prelude.{map};
ghost use Rattle.pb_parse.specs.Gives.{GivesTo};
ghost use Rattle.pb_syntax.specs.Reading.{among, many_at};
ghost use Rattle.pb_syntax.specs.Readers.{message_text_at, item_message_at, compute_text_at, collective_at, item_at, foreach_text_at, continue_text_at, braces_at, item_keys};
ghost use Rattle.pb_syntax.specs.Plain.{plain_block, plain_statement};

use crate::cursor::{Cursor, Numeral, Stop};
use pb_syntax::{
    Block, End, FileTree, High, IndexText, LinText, Op, Payload, Place, RangeText, RoleText, Spot,
    Statement,
};
use pb_text::{Key, Mark};
use std::alloc::Global;

impl<'a> Cursor<'a> {
    /// A message up to its `;`. At most one of its ends binds.
    #[tactic(auto, unfolding(pb_syntax::specs::Readers::message_text_at))]
    pub fn message(&mut self) -> Result<Statement, Stop>
        ensures { GivesTo plain_statement result self.new.rest.now (message_text_at self.old.rest.now) }
    {
        let label = self.name()?;
        let payload = self.payload()?;
        self.key(Key::From)?;
        let from = self.any_end()?;
        self.key(Key::To)?;
        let to = self.end_beside(&from.index)?;
        Ok(Statement::Message {
            label,
            payload,
            from,
            to,
        })
    }

    /// A message of a `foreach` up to its `;`. No end binds.
    #[tactic(auto, unfolding(pb_syntax::specs::Readers::item_message_at))]
    pub fn item_message(&mut self) -> Result<Statement, Stop>
        ensures { GivesTo plain_statement result self.new.rest.now (item_message_at self.old.rest.now) }
    {
        let label = self.name()?;
        let payload = self.payload()?;
        self.key(Key::From)?;
        let from = self.plain_end()?;
        self.key(Key::To)?;
        let to = self.plain_end()?;
        Ok(Statement::Message {
            label,
            payload,
            from,
            to,
        })
    }

    /// `compute` up to its `;`.
    #[tactic(auto, unfolding(pb_syntax::specs::Readers::compute_text_at))]
    pub fn compute(&mut self) -> Result<Statement, Stop>
        ensures { GivesTo plain_statement result self.new.rest.now (compute_text_at self.old.rest.now) }
    {
        let place = self.key(Key::Compute)?;
        let kernel = self.name()?;
        self.key(Key::At)?;
        let at = self.plain_end()?;
        Ok(Statement::Compute { place, kernel, at })
    }

    /// `continue` up to its `;`.
    #[tactic(auto, unfolding(pb_syntax::specs::Readers::continue_text_at))]
    pub fn continuation(&mut self) -> Result<Statement, Stop>
        ensures { GivesTo plain_statement result self.new.rest.now (continue_text_at self.old.rest.now) }
    {
        let place = self.key(Key::Continue)?;
        let name = self.name()?;
        Ok(Statement::Continue { place, name })
    }

    /// A collective up to its `;`.
    #[tactic(auto, unfolding(pb_syntax::specs::Readers::collective_at))]
    pub fn collective(&mut self) -> Result<Statement, Stop>
        ensures { GivesTo plain_statement result self.new.rest.now (collective_at self.old.rest.now) }
    {
        if self.at_key(Key::Barrier) {
            let place = self.key(Key::Barrier)?;
            return Ok(Statement::Barrier { place });
        }
        if self.at_key(Key::Broadcast) {
            let place = self.key(Key::Broadcast)?;
            let label = self.name()?;
            let payload = self.payload()?;
            self.key(Key::From)?;
            let from = self.plain_end()?;
            return Ok(Statement::Broadcast {
                place,
                label,
                payload,
                from,
            });
        }
        if self.at_key(Key::Reduce) {
            let place = self.key(Key::Reduce)?;
            let label = self.name()?;
            let payload = self.payload()?;
            self.key(Key::With)?;
            let op = self.op()?;
            self.key(Key::To)?;
            let to = self.plain_end()?;
            return Ok(Statement::Reduce {
                place,
                label,
                payload,
                op,
                to,
            });
        }
        let place = self.key(Key::Allreduce)?;
        let label = self.name()?;
        let payload = self.payload()?;
        self.key(Key::With)?;
        let op = self.op()?;
        Ok(Statement::Allreduce {
            place,
            label,
            payload,
            op,
        })
    }

    /// An item of a `foreach`, its `;` too.
    #[tactic(auto, unfolding(pb_syntax::specs::Readers::item_at, pb_syntax::specs::Readers::and_semicolon_at))]
    pub fn item(&mut self) -> Result<Statement, Stop>
        ensures { GivesTo plain_statement result self.new.rest.now (item_at self.old.rest.now) }
    {
        if self.at_word() {
            let message = self.item_message()?;
            self.mark(Mark::Semicolon)?;
            return Ok(message);
        }
        let compute = self.compute()?;
        self.mark(Mark::Semicolon)?;
        Ok(compute)
    }

    /// Items as long as the next token begins one.
    pub fn items(&mut self, alloc: Global) -> Result<Vec<Statement>, Stop>
        ensures { GivesTo (λ v. map plain_statement v.items) result self.new.rest.now (many_at (among item_keys) item_at self.old.rest.now) }
    {
        let mut list = Vec::new(alloc);
        for _ in 0..self.rest.len() {
            if !self.at_item() {
                break;
            }
            let item = self.item()?;
            list.push(item)?;
        }
        Ok(list)
    }

    /// Items in braces.
    #[tactic(auto, unfolding(pb_syntax::specs::Readers::braces_at))]
    pub fn item_braces(&mut self, alloc: Global) -> Result<Block, Stop>
        ensures { GivesTo plain_block result self.new.rest.now (braces_at (among item_keys) item_at self.old.rest.now) }
    {
        let place = self.mark(Mark::LeftBrace)?;
        let list = self.items(alloc)?;
        self.mark(Mark::RightBrace)?;
        Ok(Block { place, list })
    }

    /// A whole `foreach`.
    #[tactic(auto, unfolding(pb_syntax::specs::Readers::foreach_text_at))]
    pub fn foreach(&mut self, alloc: Global) -> Result<Statement, Stop>
        ensures { GivesTo plain_statement result self.new.rest.now (foreach_text_at self.old.rest.now) }
    {
        let place = self.key(Key::Foreach)?;
        self.mark(Mark::LeftParen)?;
        let var = self.name()?;
        self.mark(Mark::Colon)?;
        let range = self.range()?;
        self.mark(Mark::RightParen)?;
        let items = self.item_braces(alloc)?;
        Ok(Statement::Foreach {
            place,
            var,
            range,
            items,
        })
    }
}
