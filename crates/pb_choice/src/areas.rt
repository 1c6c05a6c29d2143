ghost use Rattle.std.specs.Prelude.{◌≡◌, ℕ, ℤ, ◌||◌, IfOk, OnOk};
ghost use Rattle.pb_part_areas.specs.Areas.{have};
ghost use Rattle.pb_choice_entries.specs.Clashes.{is_strange, strange};

use pb_part_areas::{Area, attach, cloned};
use pb_part_firsts::{Entry, Kind};
use pb_text::NoMemory;
use std::alloc::Global;

/// The areas of those that find nothing, or first something that is no receive.
pub fn strangers(alloc: Global, here: &[Entry], left: &[Area]) -> Result<Vec<Area>, NoMemory>
    ensures { IfOk result (λ v. (n : ℤ) (role : ℕ) (x : ℤ) → have v.items n role x ≡ have left.now n role x || strange here.now n role x) }
{
    let mut out = cloned(alloc, left)?;
    for entry in here {
        add_strange(&mut out, *entry)?;
    }
    Ok(out)
}

fn add_strange(out: &mut Vec<Area>, entry: Entry) -> Result<(), NoMemory>
    ensures { OnOk result ((n : ℤ) (role : ℕ) (x : ℤ) → have out.new.items n role x ≡ have out.old.items n role x || is_strange entry n role x) }
{
    match entry.kind {
        Kind::Receive { .. } => Ok(()),
        Kind::Other | Kind::Again => attach(out, entry.area),
    }
}
