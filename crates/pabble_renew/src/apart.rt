//! Whether FILE is one of the files that are written.

ghost use Rattle.std.specs.Prelude.{◌≡◌, ◌≤◌, ◌⊎◌, ◌||◌, Err, true, false, nat_eq, IfErr, IfOk, IfSome, OnOk};
ghost use Rattle.std.specs.Cmp.Lexicographic.{pointwise};
ghost use Rattle.pb_io.specs.Faults.{HasCause};
ghost use Rattle.pb_renew_put.specs.Names.{is_written};
ghost use Rattle.pb_renew_store.specs.Deeds.{DidNothing};
ghost use Rattle.pabble_renew.specs.Causes.{IsStoreCause};

use crate::fault::Fault;
use pb_cli_status::Refusal;
use pb_renew_put::{is_written, left_name, new_name, spare_name};
use pb_renew_store::{Failed, Store};
use std::alloc::Global;

/// `Written` where FILE is OUT, OUT.left, OUT.new or OUT.left.new, by whatever name.
pub fn check_apart<S: Store>(
    alloc: Global,
    store: &mut S,
    file: &str,
    out: &str,
) -> Result<(), Fault>
    ensures apart { OnOk result (is_written out.now file.now ≡ false) }
    ensures spelled { is_written out.now file.now ≡ true → (result ≡ Err Fault.Written) ⊎ (result ≡ Err Fault.NoMemory) }
    ensures cause { IfErr result (λ why. IsStoreCause why file.now out.now (S.holds store.old) (S.faults store.old) (S.faults store.new)) }
    ensures nothing { DidNothing (S.deeds store.old) (S.deeds store.new) (S.holds store.old) (S.holds store.new) }
    ensures later { S.faults store.old ≤ S.faults store.new }
{
    if is_written(alloc, out, file)? {
        return Err(Fault::Written);
    }
    let left = left_name(alloc, out)?;
    let fresh = new_name(alloc, out)?;
    let spare = spare_name(alloc, out)?;
    let is_one = match is_either(store, file, out, &left) {
        Ok(false) => is_either(store, file, &fresh, &spare),
        other => other,
    };
    match is_one {
        Ok(false) => Ok(()),
        Ok(true) => Err(Fault::Written),
        Err(Failed) => Err(Fault::File(Refusal::ReadFault)),
    }
}

/// True where a name leads to the same file as one of two others.
fn is_either<S: Store>(store: &mut S, name: &str, one: &str, other: &str) -> Result<bool, Failed>
    ensures same { IfOk result (λ it. IfSome (S.holds store.old) (λ files. it ≡ (pointwise nat_eq name.now one.now || pointwise nat_eq name.now other.now))) }
    ensures nothing { DidNothing (S.deeds store.old) (S.deeds store.new) (S.holds store.old) (S.holds store.new) }
    ensures cause { HasCause (S.faults store.old) (S.faults store.new) result }
{
    match store.is_same(name, one) {
        Ok(false) => store.is_same(name, other),
        Ok(true) => Ok(true),
        Err(Failed) => Err(Failed),
    }
}
