//! Where OUT is, and that FILE is another file.

ghost use Rattle.std.specs.Prelude.{◌≡◌, ◌≤◌, ◌⊎◌, ℕ, List, Err, true, false, IfErr, IfOk, IfSome, OnOk};
ghost use Rattle.std.specs.String.{string_bytes};
ghost use Rattle.pb_renew.specs.Places.{IsPlace};
ghost use Rattle.pb_renew_put.specs.Names.{is_written, left_name};
ghost use Rattle.pb_renew_store.specs.Deeds.{DidNothing};
ghost use Rattle.pabble_renew.specs.Causes.{IsStoreCause};

use crate::apart::check_apart;
use crate::fault::Fault;
use crate::request::Request;
use pb_cli_status::Refusal;
use pb_renew::{Place, place_of};
use pb_renew_store::{Failed, FileKind, Store};
use std::alloc::Global;

/// The place of OUT, where FILE is none of the files that are written there.
pub fn place_for<S: Store>(
    alloc: Global,
    store: &mut S,
    request: &Request<'_>,
) -> Result<Place, Fault>
    ensures place { IfOk result (λ place. IfSome (S.holds store.old) (IsPlace request.now.out.now place)) }
    ensures left { IfOk result (λ place. string_bytes place.left ≡ left_name (string_bytes place.out)) }
    ensures apart { IfOk result (λ place. is_written (string_bytes place.out) request.now.file.now ≡ false) }
    ensures named { OnOk result (is_written request.now.out.now request.now.file.now ≡ false) }
    ensures spelled { is_written request.now.out.now request.now.file.now ≡ true → (result ≡ Err Fault.Written) ⊎ (result ≡ Err Fault.NoMemory) }
    ensures cause { IfErr result (λ why. IsStoreCause why request.now.file.now request.now.out.now (S.holds store.old) (S.faults store.old) (S.faults store.new)) }
    ensures nothing { DidNothing (S.deeds store.old) (S.deeds store.new) (S.holds store.old) (S.holds store.new) }
    ensures later { S.faults store.old ≤ S.faults store.new }
{
    match check_apart(alloc, store, request.file, request.out) {
        Ok(()) => place_apart(alloc, store, request),
        Err(why) => Err(why),
    }
}

/// The same, where FILE isn't named as one of these.
fn place_apart<S: Store>(
    alloc: Global,
    store: &mut S,
    request: &Request<'_>,
) -> Result<Place, Fault>
    ensures place { IfOk result (λ place. IfSome (S.holds store.old) (IsPlace request.now.out.now place)) }
    ensures left { IfOk result (λ place. string_bytes place.left ≡ left_name (string_bytes place.out)) }
    ensures apart { IfOk result (λ place. is_written (string_bytes place.out) request.now.file.now ≡ false) }
    ensures cause { IfErr result (λ why. IsStoreCause why request.now.file.now request.now.out.now (S.holds store.old) (S.faults store.old) (S.faults store.new)) }
    ensures nothing { DidNothing (S.deeds store.old) (S.deeds store.new) (S.holds store.old) (S.holds store.new) }
    ensures later { S.faults store.old ≤ S.faults store.new }
{
    if let Err(why) = check_regular(store, request.file) {
        return Err(why);
    }
    let place = match place_of(alloc, store, request.out, request.losing) {
        Ok(place) => place,
        Err(why) => return Err(Fault::Out(why)),
    };
    match check_apart(alloc, store, request.file, &place.out) {
        Ok(()) => Ok(place),
        Err(why) => Err(why),
    }
}

/// `NoFile` where FILE is there and is no regular file.
fn check_regular<S: Store>(store: &mut S, file: &str) -> Result<(), Fault>
    ensures cause { IfErr result (λ why. (out : List ℕ) → IsStoreCause why file.now out (S.holds store.old) (S.faults store.old) (S.faults store.new)) }
    ensures nothing { DidNothing (S.deeds store.old) (S.deeds store.new) (S.holds store.old) (S.holds store.new) }
    ensures later { S.faults store.old ≤ S.faults store.new }
{
    match store.kind(file) {
        Ok(FileKind::Missing | FileKind::Regular | FileKind::Shared) => Ok(()),
        Ok(FileKind::Other) => Err(Fault::NoFile),
        Err(Failed) => Err(Fault::File(Refusal::ReadFault)),
    }
}
