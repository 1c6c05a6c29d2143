ghost use Rattle.std.specs.Prelude.{map};
ghost use Rattle.pb_parse.specs.Gives.{GivesTo};
ghost use Rattle.pb_syntax.specs.Reading.{among, many_at, with_front};
ghost use Rattle.pb_syntax.specs.Readers.{key_next, rec_text_at, or_block_at, choice_text_at, statement_at, block_at, statement_keys};
ghost use Rattle.pb_syntax.specs.Plain.{plain_block, plain_statement};

use crate::cursor::{Cursor, Numeral, Stop};
use pb_syntax::{
    Block, End, FileTree, High, IndexText, LinText, Op, Payload, Place, RangeText, RoleText, Spot,
    Statement,
};
use pb_text::{Key, Mark};
use std::alloc::Global;

impl<'a> Cursor<'a> {
    #[cycle(block)]
    #[tactic(auto, unfolding(pb_syntax::specs::Readers::rec_text_at))]
    pub(crate) fn recursion(&mut self, alloc: Global, depth: usize) -> Result<Statement, Stop>
        ensures { GivesTo plain_statement result self.new.rest.now (rec_text_at (block_at depth) self.old.rest.now) }
    {
        let place = self.key(Key::Rec)?;
        let name = self.name()?;
        let body = self.block(alloc, depth)?;
        Ok(Statement::Rec { place, name, body })
    }

    #[cycle(block)]
    #[tactic(auto, unfolding(pb_syntax::specs::Readers::statement_at, pb_syntax::specs::Readers::and_semicolon_at))]
    pub(crate) fn statement(&mut self, alloc: Global, depth: usize) -> Result<Statement, Stop>
        ensures { GivesTo plain_statement result self.new.rest.now (statement_at (block_at depth) self.old.rest.now) }
    {
        if self.at_word() {
            let message = self.message()?;
            self.mark(Mark::Semicolon)?;
            return Ok(message);
        }
        if self.at_key(Key::Foreach) {
            return self.foreach(alloc);
        }
        if self.at_key(Key::Rec) {
            return self.recursion(alloc, depth);
        }
        if self.at_key(Key::Continue) {
            let again = self.continuation()?;
            self.mark(Mark::Semicolon)?;
            return Ok(again);
        }
        if self.at_key(Key::Choice) {
            return self.choice(alloc, depth);
        }
        if self.at_key(Key::Compute) {
            let compute = self.compute()?;
            self.mark(Mark::Semicolon)?;
            return Ok(compute);
        }
        let collective = self.collective()?;
        self.mark(Mark::Semicolon)?;
        Ok(collective)
    }

    #[cycle(block)]
    pub(crate) fn statements(&mut self, alloc: Global, depth: usize) -> Result<Vec<Statement>, Stop>
        ensures { GivesTo (λ v. map plain_statement v.items) result self.new.rest.now (many_at (among statement_keys) (statement_at (block_at depth)) self.old.rest.now) }
    {
        let mut list = Vec::new(alloc);
        for _ in 0..self.rest.len() {
            if !self.at_statement() {
                break;
            }
            let statement = self.statement(alloc, depth)?;
            list.push(statement)?;
        }
        Ok(list)
    }

    // `depth` is how many blocks may still be nested. There are never more than tokens.
    #[cycle(block)]
    #[tactic(auto, unfolding(pb_syntax::specs::Readers::block_at, pb_syntax::specs::Readers::braces_at))]
    pub(crate) fn block(&mut self, alloc: Global, depth: usize) -> Result<Block, Stop>
        ensures { GivesTo plain_block result self.new.rest.now (block_at depth self.old.rest.now) }
    {
        let place = self.mark(Mark::LeftBrace)?;
        if depth == 0 {
            self.mark(Mark::RightBrace)?;
            return Ok(Block {
                place,
                list: Vec::new(alloc),
            });
        }
        let list = self.statements(alloc, depth - 1)?;
        self.mark(Mark::RightBrace)?;
        Ok(Block { place, list })
    }

    #[cycle(block)]
    #[tactic(auto, unfolding(pb_syntax::specs::Readers::or_block_at))]
    pub(crate) fn or_block(&mut self, alloc: Global, depth: usize) -> Result<Block, Stop>
        ensures { GivesTo plain_block result self.new.rest.now (or_block_at (block_at depth) self.old.rest.now) }
    {
        self.key(Key::Or)?;
        self.block(alloc, depth)
    }

    // The branches after the first two, behind those.
    #[cycle(block)]
    pub(crate) fn or_blocks(
        &mut self,
        alloc: Global,
        depth: usize,
        mut list: Vec<Block>,
    ) -> Result<Vec<Block>, Stop>
        ensures { GivesTo (λ v. map plain_block v.items) result self.new.rest.now (with_front (map plain_block list.items) (many_at (key_next Key.Or) (or_block_at (block_at depth)) self.old.rest.now)) }
    {
        for _ in 0..self.rest.len() {
            if !self.at_key(Key::Or) {
                break;
            }
            let branch = self.or_block(alloc, depth)?;
            list.push(branch)?;
        }
        Ok(list)
    }

    #[cycle(block)]
    #[tactic(auto, unfolding(pb_syntax::specs::Readers::choice_text_at))]
    pub(crate) fn choice(&mut self, alloc: Global, depth: usize) -> Result<Statement, Stop>
        ensures { GivesTo plain_statement result self.new.rest.now (choice_text_at (block_at depth) self.old.rest.now) }
    {
        let place = self.key(Key::Choice)?;
        let kernel = self.name()?;
        self.key(Key::At)?;
        let at = self.plain_end()?;
        let first = self.block(alloc, depth)?;
        let second = self.or_block(alloc, depth)?;
        let mut branches = Vec::new(alloc);
        branches.push(first)?;
        branches.push(second)?;
        let branches = self.or_blocks(alloc, depth, branches)?;
        Ok(Statement::Choice {
            place,
            kernel,
            at,
            branches,
        })
    }
}
