ghost use Rattle.pb_parse.specs.Gives.{GivesTo};
ghost use Rattle.pb_syntax.specs.Readers.{plain_index_at, plain_end_at, after_name_at, bracketed_at, any_index_at, any_end_at, end_beside_at};

use crate::cursor::{Cursor, Numeral, Stop};
use pb_syntax::{
    Block, End, FileTree, High, IndexText, LinText, Op, Payload, Place, RangeText, RoleText, Spot,
    Statement,
};
use pb_text::{Key, Mark};
use std::alloc::Global;

impl<'a> Cursor<'a> {
    /// The index of an end that may not bind, or none.
    #[tactic(auto, unfolding(pb_syntax::specs::Readers::plain_index_at))]
    pub fn plain_index(&mut self) -> Result<IndexText, Stop>
        ensures { GivesTo (λ x. x) result self.new.rest.now (plain_index_at self.old.rest.now) }
    {
        if self.at_mark(Mark::LeftBracket) {
            self.mark(Mark::LeftBracket)?;
            let at = self.lin()?;
            self.mark(Mark::RightBracket)?;
            return Ok(IndexText::At(at));
        }
        Ok(IndexText::Zero)
    }

    /// An end that may not bind.
    #[tactic(auto, unfolding(pb_syntax::specs::Readers::plain_end_at))]
    pub fn plain_end(&mut self) -> Result<End, Stop>
        ensures { GivesTo (λ x. x) result self.new.rest.now (plain_end_at self.old.rest.now) }
    {
        let role = self.name()?;
        let index = self.plain_index()?;
        Ok(End { role, index })
    }

    /// What stands behind the first name in the brackets of an end.
    #[tactic(auto, unfolding(pb_syntax::specs::Readers::after_name_at))]
    pub fn after_name(&mut self, first: Spot) -> Result<IndexText, Stop>
        ensures { GivesTo (λ x. x) result self.new.rest.now (after_name_at first self.old.rest.now) }
    {
        if self.at_mark(Mark::Colon) {
            self.mark(Mark::Colon)?;
            let range = self.range()?;
            return Ok(IndexText::Bind(first, range));
        }
        let place = first.place;
        let off = self.offset()?;
        Ok(IndexText::At(LinText {
            base: Some(first),
            off,
            place,
        }))
    }

    /// What stands in the brackets of an end that may bind.
    #[tactic(auto, unfolding(pb_syntax::specs::Readers::bracketed_at))]
    pub fn bracketed(&mut self) -> Result<IndexText, Stop>
        ensures { GivesTo (λ x. x) result self.new.rest.now (bracketed_at self.old.rest.now) }
    {
        if self.at_number() {
            let n = self.number()?;
            return Ok(IndexText::At(LinText {
                base: None,
                off: n.value as i32,
                place: n.place,
            }));
        }
        let first = self.name()?;
        self.after_name(first)
    }

    /// The index of an end that may bind, or none.
    #[tactic(auto, unfolding(pb_syntax::specs::Readers::any_index_at))]
    pub fn any_index(&mut self) -> Result<IndexText, Stop>
        ensures { GivesTo (λ x. x) result self.new.rest.now (any_index_at self.old.rest.now) }
    {
        if self.at_mark(Mark::LeftBracket) {
            self.mark(Mark::LeftBracket)?;
            let inside = self.bracketed()?;
            self.mark(Mark::RightBracket)?;
            return Ok(inside);
        }
        Ok(IndexText::Zero)
    }

    /// An end that may bind.
    #[tactic(auto, unfolding(pb_syntax::specs::Readers::any_end_at))]
    pub fn any_end(&mut self) -> Result<End, Stop>
        ensures { GivesTo (λ x. x) result self.new.rest.now (any_end_at self.old.rest.now) }
    {
        let role = self.name()?;
        let index = self.any_index()?;
        Ok(End { role, index })
    }

    /// The second end of a message, which may bind where the first one doesn't.
    #[tactic(auto, unfolding(pb_syntax::specs::Readers::end_beside_at))]
    pub fn end_beside(&mut self, first: &IndexText) -> Result<End, Stop>
        ensures { GivesTo (λ x. x) result self.new.rest.now (end_beside_at first.now self.old.rest.now) }
    {
        match first {
            IndexText::Bind(..) => self.plain_end(),
            _ => self.any_end(),
        }
    }
}
