//! The file that was made last, written whole.

ghost use Rattle.std.specs.Prelude.{false, ◌≤◌, List, OnErr, [], ◌≡◌};
ghost use Rattle.pb_io.specs.Faults.{Rose};
ghost use Rattle.pb_renew_put.specs.Jobs.{Task};
ghost use Rattle.pb_renew_put.specs.Phases.{Own, has, Leads, Phase};
ghost use Rattle.pb_renew_put.specs.Steps.{Appends, Sets, Writes};

use pb_renew_store::{Failed, Store};

/// Writes these bytes to the file that was made last, which is empty, and brings them to the disk.
pub fn write_whole<S: Store>(store: &mut S, bytes: &[u8]) -> Result<(), Failed>
    ensures goes { (t : Task) (set : Own → Phase) → Sets t (S.written store.old) set → Leads t (set (has [] false)) (S.deeds store.old) (S.deeds store.new) (S.holds store.old) (S.holds store.new) (Writes result set bytes.now) }
    ensures fault { OnErr result (Rose (S.faults store.old) (S.faults store.new)) }
    ensures later { S.faults store.old ≤ S.faults store.new }
{
    append_all(store, bytes)?;
    store.sync()
}

fn append_all<S: Store>(store: &mut S, bytes: &[u8]) -> Result<(), Failed>
    ensures goes { (t : Task) (set : Own → Phase) → Sets t (S.written store.old) set → Leads t (set (has [] false)) (S.deeds store.old) (S.deeds store.new) (S.holds store.old) (S.holds store.new) (Appends result set bytes.now) }
    ensures written { S.written store.new ≡ S.written store.old }
    ensures fault { OnErr result (Rose (S.faults store.old) (S.faults store.new)) }
    ensures later { S.faults store.old ≤ S.faults store.new }
{
    let mut done = 0;
    while done < bytes.len() {
        done += store.append(&bytes[done..])?;
    }
    Ok(())
}
