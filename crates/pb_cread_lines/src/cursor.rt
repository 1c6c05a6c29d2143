//! Reads numbers and lins.

ghost use Rattle.std.specs.Prelude.{◌≡◌, ◌+◌, ◌-ℤ◌, ◌<ℤ◌, ◌≤ℤ◌, pos, Some, None, false, if◌then◌else◌};
ghost use Rattle.pb_cread_lines.specs.Parts.{strip, number_at, offset_at, signed_at, narrow, based_at, lin_at, lin_behind, number_behind, bounds_at, index_at, guard_at, GivesTo, Gives};

use pb_ctree::{Base, Guard, Lin, NoMemory};
use pb_text_read::{number, strip};

/// Numbers fit 32 bits.
const LIMIT: u128 = 4_294_967_296;

/// Why a part can't be read.
#[derive(Clone, Copy)]
pub(crate) enum Stop {
    /// No part stands here.
    Unread,
    NoMemory,
}

impl From<NoMemory> for Stop {
    ghost use Rattle.std.specs.Prelude.{◌≡◌};
    ghost use Rattle.pb_cread_lines.specs.declared.cursor.Stop.TheVariants.{NoMemory};

    ghost from_gives = { λ _ e. e ≡ NoMemory };

    fn from(_: NoMemory) -> Self {
        Stop::NoMemory
    }
}

#[tactic(auto, unfolding(crate::specs::Parts::narrow))]
pub(crate) fn narrow(off: i64) -> Result<i32, Stop>
    ensures { Gives result (narrow off) }
{
    if off < -2_147_483_648 {
        return Err(Stop::Unread);
    }
    if off > 2_147_483_647 {
        return Err(Stop::Unread);
    }
    Ok(off as i32)
}

/// The bytes that are left of a line. After an error they are any.
#[derive(Drop)]
pub(crate) struct Cursor<'a> {
    pub(crate) rest: &'a [u8],
}

impl<'a> Cursor<'a> {
    /// Passes over a text, where it stands here.
    #[tactic(auto, unfolding(crate::specs::Parts::strip))]
    pub(crate) fn strip(&mut self, text: &[u8]) -> bool
        ensures found { strip text.now self.old.rest.now ≡ (if result then Some self.new.rest.now else None) }
        ensures kept { result ≡ false → self.new.rest.now ≡ self.old.rest.now }
    {
        match strip(text, self.rest) {
            Some(rest) => {
                self.rest = rest;
                true
            }
            None => false,
        }
    }

    pub(crate) fn number(&mut self) -> Result<u32, Stop>
        ensures { GivesTo result self.new.rest.now (number_at self.old.rest.now) }
    {
        match number(LIMIT, self.rest) {
            Some((n, rest)) => {
                self.rest = rest;
                Ok(n as u32)
            }
            None => Err(Stop::Unread),
        }
    }

    /// What stands behind a letter.
    #[tactic(auto, unfolding(crate::specs::Parts::offset_at))]
    pub(crate) fn offset(&mut self) -> Result<i64, Stop>
        ensures { GivesTo result self.new.rest.now (offset_at self.old.rest.now) }
    {
        if self.strip(b" + ") {
            let n = self.number()?;
            return Ok(i64::from(n));
        }
        if self.strip(b" - ") {
            let n = self.number()?;
            return Ok(-i64::from(n));
        }
        Ok(0)
    }

    #[tactic(auto, unfolding(crate::specs::Parts::signed_at))]
    fn signed(&mut self) -> Result<i64, Stop>
        ensures { GivesTo result self.new.rest.now (signed_at self.old.rest.now) }
    {
        if self.strip(b"-") {
            let n = self.number()?;
            return Ok(-i64::from(n));
        }
        let n = self.number()?;
        Ok(i64::from(n))
    }

    #[tactic(auto, unfolding(crate::specs::Parts::based_at))]
    fn based(&mut self) -> Result<(Base, i64), Stop>
        ensures { GivesTo result self.new.rest.now (based_at self.old.rest.now) }
    {
        if self.strip(b"N") {
            let off = self.offset()?;
            return Ok((Base::Param, off));
        }
        if self.strip(b"i") {
            let off = self.offset()?;
            return Ok((Base::Var, off));
        }
        let off = self.signed()?;
        Ok((Base::Fixed, off))
    }

    #[tactic(auto, unfolding(crate::specs::Parts::lin_at))]
    pub(crate) fn lin(&mut self) -> Result<Lin, Stop>
        ensures { GivesTo result self.new.rest.now (lin_at self.old.rest.now) }
    {
        let (base, off) = self.based()?;
        let off = narrow(off)?;
        Ok(Lin { base, off })
    }

    #[tactic(auto, unfolding(crate::specs::Parts::lin_behind))]
    fn lin_behind(&mut self, text: &[u8]) -> Result<Option<Lin>, Stop>
        ensures { GivesTo result self.new.rest.now (lin_behind text.now self.old.rest.now) }
    {
        if self.strip(text) {
            let lin = self.lin()?;
            return Ok(Some(lin));
        }
        Ok(None)
    }

    #[tactic(auto, unfolding(crate::specs::Parts::number_behind))]
    fn number_behind(&mut self, text: &[u8]) -> Result<Option<u32>, Stop>
        ensures { GivesTo result self.new.rest.now (number_behind text.now self.old.rest.now) }
    {
        if self.strip(text) {
            let n = self.number()?;
            return Ok(Some(n));
        }
        Ok(None)
    }

    #[tactic(auto, unfolding(crate::specs::Parts::bounds_at))]
    fn bounds(&mut self) -> Result<(Option<Lin>, Option<Lin>), Stop>
        ensures { GivesTo result self.new.rest.now (bounds_at self.old.rest.now) }
    {
        let low = self.lin_behind(b" && I >= ")?;
        let high = self.lin_behind(b" && I <= ")?;
        Ok((low, high))
    }

    #[tactic(auto, unfolding(crate::specs::Parts::index_at))]
    fn index(&mut self) -> Result<(Option<Lin>, Option<Lin>), Stop>
        ensures { GivesTo result self.new.rest.now (index_at self.old.rest.now) }
    {
        if self.strip(b" && I == ") {
            let at = self.lin()?;
            return Ok((Some(at), Some(at)));
        }
        self.bounds()
    }

    #[tactic(auto, unfolding(crate::specs::Parts::guard_at))]
    pub(crate) fn guard(&mut self) -> Result<Guard, Stop>
        ensures { GivesTo result self.new.rest.now (guard_at self.old.rest.now) }
    {
        if !self.strip(b"R == ") {
            return Err(Stop::Unread);
        }
        let role = self.number()?;
        let (low, high) = self.index()?;
        let from = self.number_behind(b" && N >= ")?;
        let to = self.number_behind(b" && N <= ")?;
        Ok(Guard {
            role,
            low,
            high,
            from,
            to,
        })
    }
}
