//! A file that is taken away after a fault.

ghost use Rattle.std.specs.Prelude.{◌≡◌, ◌≤◌};
ghost use Rattle.pb_renew_put.specs.Steps.{Removes};

use pb_renew_store::{Failed, Store};

/// Takes a file of the call's own away, if that can be done, and gives the fault for which that is.
pub fn without<S: Store, F: Copy + Drop>(store: &mut S, name: &str, why: F) -> F
    ensures same { result ≡ why }
    ensures away { Removes name.now (S.deeds store.old) (S.deeds store.new) (S.holds store.old) (S.holds store.new) (S.faults store.old) (S.faults store.new) }
    ensures later { S.faults store.old ≤ S.faults store.new }
{
    match store.remove(name) {
        Ok(()) | Err(Failed) => why,
    }
}
