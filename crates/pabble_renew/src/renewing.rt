//! Renewing a file.

ghost use Rattle.std.specs.Prelude.{◌≡◌, ◌≤◌, ◌⊎◌, Err, true, false, IfErr, IfOk, OnOk};
ghost use Rattle.pb_renew_put.specs.Names.{is_written};
ghost use Rattle.pb_renew_store.specs.Changes.{Turns};
ghost use Rattle.pb_renew_store.specs.Deeds.{DidNothing};
ghost use Rattle.pb_renew.specs.declared.unrenewed.Unrenewed.TheVariants as why;
ghost use Rattle.pabble_renew.specs.declared.fault.Fault.TheVariants as fault;
ghost use Rattle.pabble_renew.specs.Asked.{asked_by};
ghost use Rattle.pabble_renew.specs.Causes.{IsCause};
ghost use Rattle.pabble_renew.specs.Leaves.{Achieves, DidAll, DidSome, MeetsLock, Spares, SparesRest};
ghost use Rattle.pabble_renew.specs.Planned.{IsFolderCause, IsPlanned, IsPlannedAt};

use crate::carrying::carry_out;
use crate::fault::Fault;
use crate::place::place_for;
use crate::request::Request;
use crate::source::{Source, source_in};
use pb_io::Folder;
use pb_renew::{Place, Plan, Wanted, plan_for};
use pb_renew_store::Store;
use std::alloc::Global;

/// What became of OUT and OUT.left, or would, and the text that OUT gets.
#[derive(Drop)]
pub struct Renewal {
    pub plan: Plan,
    pub wanted: Wanted,
}

/// Puts the C text of the protocol in FILE in the place of OUT, or of the file that OUT leads to. It has each body of the old OUT
/// that still has a function, and default bodies for new functions; the other bodies go to OUT.left, behind what is there. Where it
/// is only to be told nothing is written; then `Busy` comes where OUT.new is there.
///
/// `Written` comes exactly where FILE is OUT, OUT.left or one of the two files beside them, `NoFile` where it is there and no regular
/// file, and `File` tells why it isn't accepted, as in `check FILE`; then no file is touched. `Out` tells why OUT isn't renewed: then
/// OUT and OUT.left are as they were, but for `Halfway`. `NoMemory` may come in place of each.
///
/// FILE, OUT and OUT.left are read in the folder, and compared again in the store, before OUT gets its text.
pub fn renew_file<S: Store, F: Folder>(
    alloc: Global,
    store: &mut S,
    folder: &mut F,
    request: &Request<'_>,
) -> Result<Renewal, Fault>
    ensures planned { IfOk result (λ it. IsPlanned (asked_by request.now) (S.holds store.old) (F.holds folder.old) it.wanted it.plan) }
    ensures apart { OnOk result (is_written request.now.out.now request.now.file.now ≡ false) }
    ensures done { OnOk result (Achieves request.now.doing request.now.file.now request.now.out.now (S.holds store.old) (S.holds store.new)) }
    ensures did { OnOk result (DidAll (asked_by request.now) (S.deeds store.old) (S.deeds store.new) (S.holds store.old) (S.holds store.new)) }
    ensures spares { IfErr result (λ why. Spares why request.now.out.now (S.holds store.old) (S.holds store.new)) }
    ensures cause { IfErr result (λ why. IsCause why (asked_by request.now) (record { store = S.holds store.old; folder = F.holds folder.old; failed = S.faults store.old; failed_now = S.faults store.new; unread = F.faults folder.old; unread_now = F.faults folder.new })) }
    ensures lock { IfErr result (λ it. it ≡ fault.Out why.Busy → MeetsLock request.now.out.now (S.holds store.old) (S.holds store.new)) }
    ensures tried { IfErr result (λ why. DidSome why (S.faults store.new) (asked_by request.now) (S.deeds store.old) (S.deeds store.new) (S.holds store.old) (S.holds store.new)) }
    ensures written { is_written request.now.out.now request.now.file.now ≡ true → (result ≡ Err Fault.Written) ⊎ (result ≡ Err Fault.NoMemory) }
    ensures rest { Turns (S.holds store.old) (S.holds store.new) (SparesRest (asked_by request.now)) }
    ensures later { S.faults store.old ≤ S.faults store.new }
    ensures read { F.faults folder.old ≤ F.faults folder.new }
    ensures holds { F.holds folder.new ≡ F.holds folder.old }
{
    let renewal = match plan_file(alloc, store, folder, request) {
        Ok(renewal) => renewal,
        Err(why) => return Err(why),
    };
    match carry_out(alloc, store, &renewal.plan.job, request.doing) {
        Ok(()) => Ok(renewal),
        Err(why) => Err(Fault::Out(why)),
    }
}

/// What is to become of OUT and OUT.left. Nothing is written.
fn plan_file<S: Store, F: Folder>(
    alloc: Global,
    store: &mut S,
    folder: &mut F,
    request: &Request<'_>,
) -> Result<Renewal, Fault>
    ensures planned { IfOk result (λ it. IsPlanned (asked_by request.now) (S.holds store.old) (F.holds folder.old) it.wanted it.plan) }
    ensures apart { OnOk result (is_written request.now.out.now request.now.file.now ≡ false) }
    ensures cause { IfErr result (λ why. IsCause why (asked_by request.now) (record { store = S.holds store.old; folder = F.holds folder.old; failed = S.faults store.old; failed_now = S.faults store.new; unread = F.faults folder.old; unread_now = F.faults folder.new })) }
    ensures free { IfErr result (λ it. it ≡ fault.Out why.Busy → ⊥) }
    ensures whole { IfErr result (λ it. it ≡ fault.Out why.Halfway → ⊥) }
    ensures written { is_written request.now.out.now request.now.file.now ≡ true → (result ≡ Err Fault.Written) ⊎ (result ≡ Err Fault.NoMemory) }
    ensures nothing { DidNothing (S.deeds store.old) (S.deeds store.new) (S.holds store.old) (S.holds store.new) }
    ensures later { S.faults store.old ≤ S.faults store.new }
    ensures read { F.faults folder.old ≤ F.faults folder.new }
    ensures holds { F.holds folder.new ≡ F.holds folder.old }
{
    let place = match place_for(alloc, store, request) {
        Ok(place) => place,
        Err(why) => return Err(why),
    };
    match plan_at(alloc, folder, request, place) {
        Ok(renewal) => Ok(renewal),
        Err(why) => Err(why),
    }
}

/// The same, where OUT is at this place.
fn plan_at<F: Folder>(
    alloc: Global,
    folder: &mut F,
    request: &Request<'_>,
    place: Place,
) -> Result<Renewal, Fault>
    ensures planned { IfOk result (λ it. IsPlannedAt (asked_by request.now) place (F.holds folder.old) it.wanted it.plan) }
    ensures cause { IfErr result (λ why. IsFolderCause why (asked_by request.now) place (F.holds folder.old) (F.faults folder.old) (F.faults folder.new)) }
    ensures read { F.faults folder.old ≤ F.faults folder.new }
    ensures holds { F.holds folder.new ≡ F.holds folder.old }
{
    let source = match source_in(alloc, folder, request.file) {
        Ok(source) => source,
        Err(why) => return Err(Fault::File(why)),
    };
    let Source { bytes, wanted } = source;
    match plan_for(
        alloc,
        folder,
        &wanted,
        request.file,
        bytes,
        place,
        request.losing,
    ) {
        Ok(plan) => Ok(Renewal { plan, wanted }),
        Err(why) => Err(Fault::Out(why)),
    }
}
