ghost use Rattle.std.specs.Prelude.{◌≡◌, ℕ, ℤ, pos, ◌+ℤ◌, List, OnOk};
ghost use Rattle.pb_part_areas.specs.declared.area.Area.{Area};
ghost use Rattle.pb_part_takers.specs.declared.held.Held.{Held};
ghost use Rattle.pb_part_takers.specs.Ends.{IsEndArea};
ghost use Rattle.pb_part_takers.specs.Pieces.{IsAdded, end_piece};
ghost use Rattle.pb_part_takers.specs.Sums.{IsSum};

use pb_affine::Lin;
use pb_core_language::CoreEnd;
use pb_part_areas::{Area, clipped};
use pb_text::NoMemory;

/// The lin with another's offset added, which is exact as long as it is in bounds.
pub(crate) fn moved_by(lin: Lin, by: Lin) -> Lin
    ensures { IsSum lin by.off result }
{
    Lin {
        base: lin.base,
        off: lin.off.saturating_add(by.off),
    }
}

/// The lin after this one, which is exact as long as it is in bounds.
pub(crate) fn next_to(lin: Lin) -> Lin
    ensures { IsSum lin (pos 1) result }
{
    Lin {
        base: lin.base,
        off: lin.off.saturating_add(1),
    }
}

/// The area of the rank at an end. Takes no memory.
pub fn end_area(end: CoreEnd) -> Area
    ensures { IsEndArea end result }
{
    Area {
        role: end.role,
        low: end.at,
        end: next_to(end.at),
        from: 0,
        until: None,
    }
}

/// Adds the rank at an end.
pub fn add_end(whole: &[Area], out: &mut Vec<Area>, end: CoreEnd) -> Result<(), NoMemory>
    ensures { OnOk result ((held : List Held) → IsAdded whole.now held (end_piece end) out.old.items out.new.items) }
{
    let area = clipped(end_area(end), whole);
    out.push(area)?;
    Ok(())
}
