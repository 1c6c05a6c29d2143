//! Reads the parts of a line.

ghost use Rattle.std.specs.Prelude.{◌≡◌, ◌≤◌, Some, None, cond, length, IfSome, false};
ghost use Rattle.std.specs.List.{prefix_len};
ghost use Rattle.pb_text_read.specs.Fronts.{strip};
ghost use Rattle.pb_cread_rows.specs.Parts.{number_at, small_at, plus_at, minus_at, signed_at, offset_at, lin_at, name_at, goes_on_name, GivesTo};

use crate::names::{goes_on_name, is_name};
use pb_ctree::{Base, Lin, Name};
use pb_text_read::{number, strip};

/// Numbers fit 32 bits.
const LIMIT: u128 = 4_294_967_296;

/// The bytes that are left of a line. After `None` they are any.
#[derive(Drop)]
pub struct Cursor<'a> {
    pub rest: &'a [u8],
}

impl<'a> Cursor<'a> {
    /// Passes over a text, where it stands here.
    pub fn strip(&mut self, text: &[u8]) -> bool
        ensures found { strip text.now self.old.rest.now ≡ cond result (Some self.new.rest.now) None }
        ensures kept { result ≡ false → self.new.rest.now ≡ self.old.rest.now }
    {
        match strip(text, self.rest) {
            Some(rest) => {
                self.rest = rest;
                true
            }
            None => false,
        }
    }

    /// Passes over all the digits that stand here, and gives their number. `None` exactly where there is none, or the number
    /// is 2^32 or more.
    pub fn number(&mut self) -> Option<u32>
        ensures { GivesTo result self.new.rest.now (number_at self.old.rest.now) }
    {
        let (n, rest) = number(LIMIT, self.rest)?;
        self.rest = rest;
        Some(n as u32)
    }

    fn small(&mut self) -> Option<u32>
        ensures read { GivesTo result self.new.rest.now (small_at self.old.rest.now) }
        ensures small { IfSome result (λ n. n ≤ 1000000) }
    {
        let n = self.number()?;
        if n > 1_000_000 {
            return None;
        }
        Some(n)
    }

    fn minus(&mut self) -> Option<i32>
        ensures { GivesTo result self.new.rest.now (minus_at self.old.rest.now) }
    {
        let n = self.small()?;
        Some(-(n as i32))
    }

    fn plus(&mut self) -> Option<i32>
        ensures { GivesTo result self.new.rest.now (plus_at self.old.rest.now) }
    {
        let n = self.small()?;
        Some(n as i32)
    }

    fn signed(&mut self) -> Option<i32>
        ensures { GivesTo result self.new.rest.now (signed_at self.old.rest.now) }
    {
        if self.strip(b"-") {
            return self.minus();
        }
        self.plus()
    }

    /// What stands behind `N`.
    fn offset(&mut self) -> Option<i32>
        ensures { GivesTo result self.new.rest.now (offset_at self.old.rest.now) }
    {
        if self.strip(b" + ") {
            return self.plus();
        }
        if self.strip(b" - ") {
            return self.minus();
        }
        Some(0)
    }

    /// A lin without the variable.
    pub fn lin(&mut self) -> Option<Lin>
        ensures { GivesTo result self.new.rest.now (lin_at self.old.rest.now) }
    {
        if self.strip(b"N") {
            let off = self.offset()?;
            return Some(Lin {
                base: Base::Param,
                off,
            });
        }
        let off = self.signed()?;
        Some(Lin {
            base: Base::Fixed,
            off,
        })
    }

    fn word_len(&self) -> usize
        ensures count { result ≡ prefix_len goes_on_name self.now.rest.now }
        ensures within { result ≤ length self.now.rest.now }
    {
        self.rest
            .iter()
            .take_while(|byte| goes_on_name(**byte))
            .count()
    }

    /// Passes over the letters, digits and underscores that stand here, and gives them. `None` exactly where they are
    /// no name.
    #[tactic(auto, using(crate::proofs::Strips::name_some, crate::proofs::Strips::name_short))]
    pub fn name(&mut self) -> Option<Name>
        ensures { GivesTo result self.new.rest.now (name_at self.old.rest.now) }
    {
        let (word, rest) = self.rest.split_at(self.word_len());
        if !is_name(word) {
            return None;
        }
        self.rest = rest;
        Name::of(word)
    }
}
