ghost use Rattle.std.specs.Prelude.{◌≡◌, ℕ, ℤ, ◌&&◌, ◌||◌, not, List, OnOk};
ghost use Rattle.std.specs.List.{All};
ghost use Rattle.pb_affine.specs.declared.lin.Lin.{Lin};
ghost use Rattle.pb_affine.specs.declared.range.NRange.{NRange};
ghost use Rattle.pb_part_areas.specs.Areas.{has, have, IsSomewhere, AreSomewhere};
ghost use Rattle.pb_part_areas.specs.Fits.{Fits};

use crate::area::{Area, ahead, behind, since, until};
use crate::cover::is_apart;
use crate::cut::{above, below};
use crate::tidy::{attach, attach_two};
use pb_text::NoMemory;

/// Adds what `a` holds of and `b` doesn't.
pub(crate) fn minus(out: &mut Vec<Area>, a: Area, b: Area) -> Result<(), NoMemory>
    ensures is { OnOk result ((n : ℤ) (role : ℕ) (x : ℤ) → have out.new.items n role x ≡ have out.old.items n role x || (has a n role x && not (has b n role x))) }
    ensures fits { OnOk result ((range : NRange) (cuts : List Lin) → All (Fits range cuts) out.old.items → Fits range cuts a → Fits range cuts b → All (Fits range cuts) out.new.items) }
    ensures some { OnOk result (AreSomewhere out.old.items → IsSomewhere a → AreSomewhere out.new.items) }
{
    if is_apart(a, b) {
        keep(out, a)
    } else {
        cut_out(out, a, b)
    }
}

/// Adds the area as it is.
pub(crate) fn keep(out: &mut Vec<Area>, a: Area) -> Result<(), NoMemory>
    ensures is { OnOk result ((n : ℤ) (role : ℕ) (x : ℤ) → have out.new.items n role x ≡ have out.old.items n role x || has a n role x) }
    ensures fits { OnOk result ((range : NRange) (cuts : List Lin) → All (Fits range cuts) out.old.items → Fits range cuts a → All (Fits range cuts) out.new.items) }
    ensures some { OnOk result (AreSomewhere out.old.items → IsSomewhere a → AreSomewhere out.new.items) }
{
    out.push(a)?;
    Ok(())
}

/// Adds the parts of `a` beside `b`.
fn cut_out(out: &mut Vec<Area>, a: Area, b: Area) -> Result<(), NoMemory>
    ensures is { OnOk result ((n : ℤ) (role : ℕ) (x : ℤ) → have out.new.items n role x ≡ have out.old.items n role x || (has a n role x && not (has b n role x))) }
    ensures fits { OnOk result ((range : NRange) (cuts : List Lin) → All (Fits range cuts) out.old.items → Fits range cuts a → Fits range cuts b → All (Fits range cuts) out.new.items) }
    ensures some { OnOk result (AreSomewhere out.old.items → AreSomewhere out.new.items) }
{
    if a.role == b.role {
        attach(out, until(a, b.from))?;
        attach(out, behind(a, b.until))?;
        let part = ahead(since(a, b.from), b.until);
        attach_two(out, below(part, b.low))?;
        attach_two(out, above(part, b.end))?;
        Ok(())
    } else {
        attach(out, a)
    }
}

/// Adds what both `a` and `b` hold of.
#[tactic(auto, using(crate::proofs::Covers::nothing_common))]
pub(crate) fn overlap(out: &mut Vec<Area>, a: Area, b: Area) -> Result<(), NoMemory>
    ensures is { OnOk result ((n : ℤ) (role : ℕ) (x : ℤ) → have out.new.items n role x ≡ have out.old.items n role x || (has a n role x && has b n role x)) }
    ensures fits { OnOk result ((range : NRange) (cuts : List Lin) → All (Fits range cuts) out.old.items → Fits range cuts a → Fits range cuts b → All (Fits range cuts) out.new.items) }
    ensures some { OnOk result (AreSomewhere out.old.items → AreSomewhere out.new.items) }
{
    if is_apart(a, b) {
        Ok(())
    } else {
        add_overlap(out, a, b)
    }
}

/// The same, where something may be of both.
fn add_overlap(out: &mut Vec<Area>, a: Area, b: Area) -> Result<(), NoMemory>
    ensures is { OnOk result ((n : ℤ) (role : ℕ) (x : ℤ) → have out.new.items n role x ≡ have out.old.items n role x || (has a n role x && has b n role x)) }
    ensures fits { OnOk result ((range : NRange) (cuts : List Lin) → All (Fits range cuts) out.old.items → Fits range cuts a → Fits range cuts b → All (Fits range cuts) out.new.items) }
    ensures some { OnOk result (AreSomewhere out.old.items → AreSomewhere out.new.items) }
{
    if a.role == b.role {
        let part = ahead(since(a, b.from), b.until);
        let two = above(part, b.low);
        attach_two(out, below(two.first, b.end))?;
        attach_two(out, below(two.second, b.end))?;
        Ok(())
    } else {
        Ok(())
    }
}
