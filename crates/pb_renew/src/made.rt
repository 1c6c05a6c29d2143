//! The text that OUT gets, and what is lost of its lines.

ghost use Rattle.std.specs.Prelude.{◌≡◌, ℕ, List, false, IfErr, IfOk, IsErrOf};
ghost use Rattle.pb_ctree.specs.Trees.{IsTree};
ghost use Rattle.pb_renew.specs.Made.{IsMade, IsMarked, IsTold, is_line};
ghost use Rattle.pb_renew.specs.Reasons.{IsLosing, IsReasonWith};
ghost use Rattle.pb_renew_lines.specs.Outside.{IsOutside};

use crate::Wanted;
use crate::content::MOST_BYTES;
use crate::losing::Losing;
use crate::renewal::renewal_of;
use crate::unrenewed::Unrenewed;
use pb_renew_lines::{CText, Outside, first_indented, outside_of};
use pb_renew_merge::Renewed;
use std::alloc::Global;

/// A text that renews an old one.
#[derive(Drop)]
pub struct Made {
    pub renewed: Renewed,
    /// What the old text is, where the compiler spells it so.
    pub before: Option<CText>,
    /// Whether lines of the old text are lost.
    pub is_losing: bool,
}

/// The text that an OUT with these bytes gets.
pub fn made_of(
    alloc: Global,
    wanted: &Wanted,
    bytes: &[u8],
    losing: Losing,
) -> Result<Made, Unrenewed>
    requires { IsTree wanted.now.tree }
    ensures made { IfOk result (IsMade bytes.now wanted.now) }
    ensures spared { IfOk result (λ made. losing ≡ Losing.Refused → made.is_losing ≡ false) }
    ensures fault { IfErr result (λ why. (left : List ℕ) → IsReasonWith losing bytes.now left wanted.now why) }
    ensures unread { IsErrOf result Unrenewed.ReadFault → ⊥ }
{
    let has_indented = match indented_in(bytes, losing) {
        Ok(has) => has,
        Err(why) => return Err(why),
    };
    let renewed = match renewal_of(alloc, wanted, bytes) {
        Ok(renewed) => renewed,
        Err(why) => return Err(why),
    };
    let outside = match outside_in(alloc, bytes, losing) {
        Ok(outside) => outside,
        Err(why) => return Err(why),
    };
    if renewed.text.len() > MOST_BYTES as usize {
        return Err(Unrenewed::TooLong);
    }
    Ok(put_together(renewed, has_indented, outside))
}

/// Whether a line looks like a marker that is indented.
fn indented_in(bytes: &[u8], losing: Losing) -> Result<bool, Unrenewed>
    ensures marked { IfOk result (IsMarked bytes.now) }
    ensures spared { IfOk result (λ has. losing ≡ Losing.Refused → has ≡ false) }
    ensures fault { IfErr result (λ why. IsLosing why losing bytes.now) }
{
    match first_indented(bytes) {
        None => Ok(false),
        Some(line) => match losing {
            Losing::Refused => Err(Unrenewed::Indented(line)),
            Losing::Kept => Ok(true),
        },
    }
}

/// What the lines outside of bodies are.
fn outside_in(alloc: Global, bytes: &[u8], losing: Losing) -> Result<Outside, Unrenewed>
    ensures outside { IfOk result (IsOutside bytes.now) }
    ensures spared { IfOk result (λ lines. losing ≡ Losing.Refused → is_line lines ≡ false) }
    ensures fault { IfErr result (λ why. IsLosing why losing bytes.now) }
{
    match outside_of(alloc, bytes)? {
        Outside::Text(text) => Ok(Outside::Text(text)),
        Outside::Blank => Ok(Outside::Blank),
        Outside::Line(line) => match losing {
            Losing::Refused => Err(Unrenewed::Outside(line)),
            Losing::Kept => Ok(Outside::Line(line)),
        },
    }
}

fn put_together(renewed: Renewed, has_indented: bool, outside: Outside) -> Made
    ensures renewed { result.renewed ≡ renewed }
    ensures told { IsTold has_indented outside result.is_losing }
    ensures spared { has_indented ≡ false → is_line outside ≡ false → result.is_losing ≡ false }
{
    let (before, is_losing) = match outside {
        Outside::Text(text) => (Some(text), has_indented),
        Outside::Blank => (None, has_indented),
        Outside::Line(_) => (None, true),
    };
    Made {
        renewed,
        before,
        is_losing,
    }
}
