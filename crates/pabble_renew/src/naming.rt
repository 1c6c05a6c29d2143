//! How the files are named to a person.

ghost use Rattle.std.specs.Prelude.{◌≤◌};
ghost use Rattle.pb_renew_store.specs.Deeds.{DidNothing};

use crate::doing::Doing;
use pb_renew_put::old_file;
use pb_renew_store::{FileKind, Store};
use pb_text::NoMemory;
use std::alloc::Global;

/// The greatest number of a file that keeps an old OUT.
const MOST_OLDS: u64 = 9999;

/// OUT as the user named it; where it is a link, the file that it leads to.
pub fn name_of<S: Store>(alloc: Global, store: &mut S, out: &str) -> Result<String, NoMemory>
    ensures nothing { DidNothing (S.deeds store.old) (S.deeds store.new) (S.holds store.old) (S.holds store.new) }
    ensures later { S.faults store.old ≤ S.faults store.new }
{
    match store.real_name(alloc, out) {
        Ok(own) => Ok(own),
        Err(_) => Ok(String::from_str(alloc, out)?),
    }
}

/// True where something has the name.
pub fn is_there<S: Store>(store: &mut S, name: &str) -> bool
    ensures nothing { DidNothing (S.deeds store.old) (S.deeds store.new) (S.holds store.old) (S.holds store.new) }
    ensures later { S.faults store.old ≤ S.faults store.new }
{
    match store.kind(name) {
        Ok(FileKind::Missing) => false,
        Ok(FileKind::Regular | FileKind::Shared | FileKind::Other) | Err(_) => true,
    }
}

/// The name of the file that keeps the old OUT, or that would: OUT.old, or OUT.old.2, and so on. It is the last in a row that is
/// there, or, where it is only told, the first that isn't. None where there is none.
pub fn old_name<S: Store>(
    alloc: Global,
    store: &mut S,
    out: &str,
    doing: Doing,
) -> Result<Option<String>, NoMemory>
    ensures nothing { DidNothing (S.deeds store.old) (S.deeds store.new) (S.holds store.old) (S.holds store.new) }
    ensures later { S.faults store.old ≤ S.faults store.new }
{
    let mut last = None;
    for number in 1..=MOST_OLDS {
        let name = old_file(alloc, out, number)?;
        if !is_there(store, &name) {
            return Ok(match doing {
                Doing::Renew => last,
                Doing::Tell => Some(name),
            });
        }
        last = Some(name);
    }
    Ok(last)
}
