ghost use Rattle.std.specs.Prelude.{◌≡◌, map, None, OnOk, IfOk, IfErr};
ghost use Rattle.pb_do_syntax.specs.Plain.{plain_sub, plain_file};
ghost use Rattle.pb_do_inline.specs.Index.{IsIndex};
ghost use Rattle.pb_do_faults.specs.CallSites.{bodies};
ghost use Rattle.pb_do_faults.specs.Strangers.{strangers};
ghost use Rattle.pb_do_faults.specs.Found.{first, body_calls, IsFault, HasNoFault, IsMisuse, HasNoMisuse};

use crate::arities::first_wrong_arity;
use crate::call_site::Body;
use crate::collected::collected_calls;
use crate::cycles::first_cycle;
use crate::fault::CallFault;
use crate::indexed::index_of_subs;
use crate::outsiders::first_outsider_in;
use crate::strangers::first_stranger;
use crate::unknowns::first_unknown;
use pb_do_inline::Index;
use pb_do_syntax::CallTree;
use pb_text::Place;
use std::alloc::Global;

#[tactic(auto, using(crate::proofs::Firsts::first_here, crate::proofs::Firsts::first_later))]
fn first_stranger_of(calls: &CallTree, index: &Index) -> Option<Place>
    requires { IsIndex (map plain_sub calls.now.subs.items) index.now }
    ensures { result ≡ first (strangers (plain_file calls.now)) }
{
    let found = first_stranger(&calls.subs, &index.params);
    if found.is_some() {
        return found;
    }
    first_outsider_in(&calls.body, &calls.roles)
}

fn check_bodies(
    alloc: Global,
    calls: &CallTree,
    index: &Index,
    list: &[Body],
) -> Result<(), CallFault>
    requires index { IsIndex (map plain_sub calls.now.subs.items) index.now }
    requires bodies { map body_calls list.now ≡ bodies (plain_file calls.now) }
    ensures none { OnOk result (HasNoMisuse (plain_file calls.now)) }
    ensures fault { IfErr result (λ e. IsMisuse (plain_file calls.now) e) }
{
    if let Some(place) = first_unknown(list) {
        return Err(CallFault::Unknown(place));
    }
    if let Some(place) = first_wrong_arity(list, &calls.subs) {
        return Err(CallFault::Arity(place));
    }
    if let Some(place) = first_stranger_of(calls, index) {
        return Err(CallFault::Stranger(place));
    }
    if let Some(place) = first_cycle(alloc, list)? {
        return Err(CallFault::Cycle(place));
    }
    Ok(())
}

fn check_usage(alloc: Global, calls: &CallTree, index: &Index) -> Result<(), CallFault>
    requires { IsIndex (map plain_sub calls.now.subs.items) index.now }
    ensures none { OnOk result (HasNoMisuse (plain_file calls.now)) }
    ensures fault { IfErr result (λ e. IsMisuse (plain_file calls.now) e) }
{
    let list = collected_calls(alloc, calls, &index.names)?;
    check_bodies(alloc, calls, index, &list)
}

#[tactic(auto, using(crate::proofs::Counting::twice_counts, crate::proofs::Counting::misuse_counts, crate::proofs::Counting::nothing_counts))]
/// The tables of the file's names, where nothing is wrong with its calls.
///
/// Each fault comes exactly where it counts: the earliest variant of `CallFault` with its first place in the file.
pub fn checked_calls(alloc: Global, calls: &CallTree) -> Result<Index, CallFault>
    ensures index { IfOk result (λ index. IsIndex (map plain_sub calls.now.subs.items) index) }
    ensures none { OnOk result (HasNoFault (plain_file calls.now)) }
    ensures fault { IfErr result (λ e. IsFault (plain_file calls.now) e) }
{
    let index = index_of_subs(alloc, &calls.subs)?;
    check_usage(alloc, calls, &index)?;
    Ok(index)
}
