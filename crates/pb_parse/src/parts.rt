ghost use Rattle.pb_parse.specs.Gives.{GivesTo, top_of};
ghost use Rattle.pb_syntax.specs.Reading.{many_at, with_front};
ghost use Rattle.pb_syntax.specs.Readers.{mark_next, offset_at, lin_at, range_at, top_at, role_range_at, role_at, count_at, carried_at, payload_at, op_at, comma_role_at, roles_at};

use crate::cursor::{Cursor, Numeral, Stop};
use pb_syntax::{
    Block, End, FileTree, High, IndexText, LinText, Op, Payload, Place, RangeText, RoleText, Spot,
    Statement,
};
use pb_text::{Key, Mark};
use std::alloc::Global;

/// The upper end of the constant where it stands.
#[derive(Clone, Copy)]
pub struct Top {
    pub high: High,
    pub place: Place,
}

impl<'a> Cursor<'a> {
    /// `+` or `-` and a number, or nothing, which is 0.
    #[tactic(auto, unfolding(pb_syntax::specs::Readers::offset_at))]
    pub fn offset(&mut self) -> Result<i32, Stop>
        ensures { GivesTo (λ x. x) result self.new.rest.now (offset_at self.old.rest.now) }
    {
        if self.at_mark(Mark::Plus) {
            self.mark(Mark::Plus)?;
            let n = self.number()?;
            return Ok(n.value as i32);
        }
        if self.at_mark(Mark::Minus) {
            self.mark(Mark::Minus)?;
            let n = self.number()?;
            return Ok(0 - n.value as i32);
        }
        Ok(0)
    }

    /// A number, or a name with an offset.
    #[tactic(auto, unfolding(pb_syntax::specs::Readers::lin_at))]
    pub fn lin(&mut self) -> Result<LinText, Stop>
        ensures { GivesTo (λ x. x) result self.new.rest.now (lin_at self.old.rest.now) }
    {
        if self.at_number() {
            let n = self.number()?;
            return Ok(LinText {
                base: None,
                off: n.value as i32,
                place: n.place,
            });
        }
        let base = self.name()?;
        let place = base.place;
        let off = self.offset()?;
        Ok(LinText {
            base: Some(base),
            off,
            place,
        })
    }

    /// Two of these with `..` between.
    #[tactic(auto, unfolding(pb_syntax::specs::Readers::range_at))]
    pub fn range(&mut self) -> Result<RangeText, Stop>
        ensures { GivesTo (λ x. x) result self.new.rest.now (range_at self.old.rest.now) }
    {
        let low = self.lin()?;
        self.mark(Mark::Dots)?;
        let high = self.lin()?;
        Ok(RangeText { low, high })
    }

    /// The upper end of the constant: a number or `max`.
    #[tactic(auto, unfolding(pb_syntax::specs::Readers::top_at))]
    pub fn top(&mut self) -> Result<Top, Stop>
        ensures { GivesTo top_of result self.new.rest.now (top_at self.old.rest.now) }
    {
        if self.at_number() {
            let n = self.number()?;
            return Ok(Top {
                high: High::Upto(n.value),
                place: n.place,
            });
        }
        let place = self.key(Key::Max)?;
        Ok(Top {
            high: High::Max,
            place,
        })
    }

    /// The range of a role in brackets, or nothing.
    #[tactic(auto, unfolding(pb_syntax::specs::Readers::role_range_at))]
    pub fn role_range(&mut self) -> Result<Option<RangeText>, Stop>
        ensures { GivesTo (λ x. x) result self.new.rest.now (role_range_at self.old.rest.now) }
    {
        if self.at_mark(Mark::LeftBracket) {
            self.mark(Mark::LeftBracket)?;
            let range = self.range()?;
            self.mark(Mark::RightBracket)?;
            return Ok(Some(range));
        }
        Ok(None)
    }

    /// The declaration of a role.
    #[tactic(auto, unfolding(pb_syntax::specs::Readers::role_at))]
    pub fn role(&mut self) -> Result<RoleText, Stop>
        ensures { GivesTo (λ x. x) result self.new.rest.now (role_at self.old.rest.now) }
    {
        self.key(Key::Role)?;
        let role = self.name()?;
        let range = self.role_range()?;
        Ok(RoleText { role, range })
    }

    /// A comma and the declaration of a role.
    #[tactic(auto, unfolding(pb_syntax::specs::Readers::comma_role_at))]
    pub fn comma_role(&mut self) -> Result<RoleText, Stop>
        ensures { GivesTo (λ x. x) result self.new.rest.now (comma_role_at self.old.rest.now) }
    {
        self.mark(Mark::Comma)?;
        self.role()
    }

    /// The roles behind a first one, put behind those of the list.
    pub fn comma_roles(&mut self, mut list: Vec<RoleText>) -> Result<Vec<RoleText>, Stop>
        ensures { GivesTo (λ v. v.items) result self.new.rest.now (with_front list.items (many_at (mark_next Mark.Comma) comma_role_at self.old.rest.now)) }
    {
        for _ in 0..self.rest.len() {
            if !self.at_mark(Mark::Comma) {
                break;
            }
            let role = self.comma_role()?;
            if let Some(range) = &role.range {
                let _base = &range.low.base;
            }
            list.push(role)?;
        }
        Ok(list)
    }

    /// One role or more, with commas between.
    #[tactic(auto, unfolding(pb_syntax::specs::Readers::roles_at))]
    pub fn roles(&mut self, alloc: Global) -> Result<Vec<RoleText>, Stop>
        ensures { GivesTo (λ v. v.items) result self.new.rest.now (roles_at self.old.rest.now) }
    {
        let role = self.role()?;
        let mut list = Vec::new(alloc);
        if let Some(range) = &role.range {
            let _base = &range.low.base;
        }
        list.push(role)?;
        self.comma_roles(list)
    }

    /// The number of elements in brackets, which isn't 0, or nothing, which is 1.
    #[tactic(auto, unfolding(pb_syntax::specs::Readers::count_at))]
    pub fn count(&mut self) -> Result<u32, Stop>
        ensures { GivesTo (λ x. x) result self.new.rest.now (count_at self.old.rest.now) }
    {
        if self.at_mark(Mark::LeftBracket) {
            self.mark(Mark::LeftBracket)?;
            let n = self.nonzero()?;
            self.mark(Mark::RightBracket)?;
            return Ok(n.value);
        }
        Ok(1)
    }

    /// What a payload holds, without its parentheses.
    #[tactic(auto, unfolding(pb_syntax::specs::Readers::carried_at, pb_syntax::specs::Readers::type_at))]
    pub fn carried(&mut self) -> Result<Payload, Stop>
        ensures { GivesTo (λ x. x) result self.new.rest.now (carried_at self.old.rest.now) }
    {
        if self.at_key(Key::Int32) {
            self.key(Key::Int32)?;
            let n = self.count()?;
            return Ok(Payload::Int32(n));
        }
        if self.at_key(Key::Uint32) {
            self.key(Key::Uint32)?;
            let n = self.count()?;
            return Ok(Payload::Uint32(n));
        }
        Ok(Payload::Unit)
    }

    /// A payload in its parentheses.
    #[tactic(auto, unfolding(pb_syntax::specs::Readers::payload_at))]
    pub fn payload(&mut self) -> Result<Payload, Stop>
        ensures { GivesTo (λ x. x) result self.new.rest.now (payload_at self.old.rest.now) }
    {
        self.mark(Mark::LeftParen)?;
        let payload = self.carried()?;
        self.mark(Mark::RightParen)?;
        Ok(payload)
    }

    /// The operation of a reduction.
    #[tactic(auto, unfolding(pb_syntax::specs::Readers::op_at))]
    pub fn op(&mut self) -> Result<Op, Stop>
        ensures { GivesTo (λ x. x) result self.new.rest.now (op_at self.old.rest.now) }
    {
        if self.at_key(Key::Min) {
            self.key(Key::Min)?;
            return Ok(Op::Min);
        }
        if self.at_key(Key::Max) {
            self.key(Key::Max)?;
            return Ok(Op::Max);
        }
        self.key(Key::Sum)?;
        Ok(Op::Sum)
    }
}
