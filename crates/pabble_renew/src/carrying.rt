//! Carrying a plan out.

ghost use Rattle.std.specs.Prelude.{◌≡◌, ◌≤◌, None, false, IfErr, IfSome, IsErrOf, OnOk};
ghost use Rattle.std.specs.String.{string_bytes};
ghost use Rattle.pb_io.specs.Files.{file_of};
ghost use Rattle.pb_renew_put.specs.Jobs.{task_of};
ghost use Rattle.pb_renew_put.specs.Names.{is_written, new_name};
ghost use Rattle.pb_renew_put.specs.Puts.{KeepsRest};
ghost use Rattle.pb_renew_store.specs.Changes.{Turns};
ghost use Rattle.pb_renew_store.specs.Deeds.{DidNothing};
ghost use Rattle.pabble_renew.specs.Leaves.{MeetsLock};
ghost use Rattle.pabble_renew.specs.Steps.{CarriesOut, FailsTo, Goes, IsLockCause, IsPutCause, StopsOr};

use crate::doing::Doing;
use pb_renew::Unrenewed;
use pb_renew_put::{Job, new_name, put};
use pb_renew_store::{Failed, FileKind, Store};
use std::alloc::Global;

/// Puts the texts of a job; or looks whether its lock is there, where nothing is to be written.
pub fn carry_out<S: Store>(
    alloc: Global,
    store: &mut S,
    job: &Job,
    doing: Doing,
) -> Result<(), Unrenewed>
    requires apart { is_written (string_bytes job.now.out) (string_bytes job.now.file) ≡ false }
    ensures done { OnOk result (CarriesOut doing (task_of job.now) (S.holds store.old) (S.holds store.new)) }
    ensures goes { OnOk result (Goes doing (task_of job.now) (S.deeds store.old) (S.deeds store.new) (S.holds store.old) (S.holds store.new)) }
    ensures kept { IfErr result (λ why. Turns (S.holds store.old) (S.holds store.new) (FailsTo why (task_of job.now))) }
    ensures stops { IfErr result (λ why. StopsOr doing why (task_of job.now) (S.deeds store.old) (S.deeds store.new) (S.holds store.old) (S.holds store.new) (S.faults store.new)) }
    ensures cause { IfErr result (λ why. IsPutCause why (task_of job.now) (S.holds store.old) (S.faults store.old) (S.faults store.new)) }
    ensures lock { IsErrOf result Unrenewed.Busy → MeetsLock (task_of job.now).out (S.holds store.old) (S.holds store.new) }
    ensures rest { Turns (S.holds store.old) (S.holds store.new) (KeepsRest (task_of job.now)) }
    ensures later { S.faults store.old ≤ S.faults store.new }
{
    match doing {
        Doing::Renew => match put(alloc, store, job) {
            Ok(()) => Ok(()),
            Err(fault) => Err(Unrenewed::unput(fault)),
        },
        Doing::Tell => look_at_lock(alloc, store, &job.out),
    }
}

/// `Busy` where OUT.new is there.
fn look_at_lock<S: Store>(alloc: Global, store: &mut S, out: &str) -> Result<(), Unrenewed>
    ensures free { OnOk result (IfSome (S.holds store.old) (λ files. file_of files (new_name out.now) ≡ None)) }
    ensures cause { IfErr result (λ why. IsLockCause why out.now (S.holds store.old) (S.faults store.old) (S.faults store.new)) }
    ensures nothing { DidNothing (S.deeds store.old) (S.deeds store.new) (S.holds store.old) (S.holds store.new) }
    ensures later { S.faults store.old ≤ S.faults store.new }
{
    let fresh = new_name(alloc, out)?;
    match store.kind(&fresh) {
        Ok(FileKind::Missing) => Ok(()),
        Ok(FileKind::Regular | FileKind::Shared | FileKind::Other) => Err(Unrenewed::Busy),
        Err(Failed) => Err(Unrenewed::ReadFault),
    }
}
