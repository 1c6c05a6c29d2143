ghost use Rattle.pb_parse.specs.Gives.{GivesTo};
ghost use Rattle.pb_syntax.specs.Reading.{next};
ghost use Rattle.pb_syntax.specs.Readers.{block_at, file_at, ended};
ghost use Rattle.pb_syntax.specs.Plain.{plain_file};

use crate::cursor::{Cursor, Stop};
use pb_syntax::{
    Block, End, FileTree, High, IndexText, LinText, Op, Payload, Place, RangeText, RoleText, Spot,
    Statement,
};
use pb_text::{Key, Mark};
use std::alloc::Global;

impl<'a> Cursor<'a> {
    #[tactic(auto, unfolding(pb_syntax::specs::Readers::file_at))]
    pub(crate) fn file(&mut self, alloc: Global, depth: usize) -> Result<FileTree, Stop>
        ensures { GivesTo plain_file result self.new.rest.now (file_at (block_at depth) self.old.rest.now) }
    {
        self.key(Key::Const)?;
        let constant = self.name()?;
        self.mark(Mark::Equals)?;
        let low = self.number()?;
        self.mark(Mark::Dots)?;
        let high = self.top()?;
        self.mark(Mark::Semicolon)?;
        self.key(Key::Global)?;
        self.key(Key::Protocol)?;
        let protocol = self.name()?;
        self.mark(Mark::LeftParen)?;
        let roles = self.roles(alloc)?;
        self.mark(Mark::RightParen)?;
        let body = self.block(alloc, depth)?;
        Ok(FileTree {
            constant,
            low: low.value,
            low_place: low.place,
            high: high.high,
            high_place: high.place,
            protocol,
            roles,
            body,
        })
    }

    pub(crate) fn whole(&mut self, alloc: Global, depth: usize) -> Result<FileTree, Stop>
        ensures { GivesTo plain_file result self.new.rest.now (next (file_at (block_at depth) self.old.rest.now) ended) }
    {
        let file = self.file(alloc, depth)?;
        if self.rest.is_empty() {
            Ok(file)
        } else {
            Err(Stop::Unexpected)
        }
    }
}
