//! OUT, where all but its name is on the disk.

ghost use Rattle.std.specs.Prelude.{◌≡◌, ◌≤◌, List, Option, None, true, false, IfErr, []};
ghost use Rattle.pb_renew_put.specs.Jobs.{task_of};
ghost use Rattle.pb_renew_put.specs.Phases.{Own, nothing, has, unkept, Leads, is_own, start, with_fresh, untouched};
ghost use Rattle.pb_renew_put.specs.Puts.{least_count};
ghost use Rattle.pb_renew_put.specs.Steps.{AreFiles, Fills, Prepares, under};

use crate::fault::PutFault;
use crate::files::Files;
use crate::job::Job;
use crate::look::look;
use crate::old::keep_old;
use pb_renew_store::{Failed, Store};
use std::alloc::Global;

/// Keeps the old OUT, where it is to be kept, and looks at FILE and OUT.
pub fn prepare<S: Store>(
    alloc: Global,
    store: &mut S,
    job: &Job,
    files: &Files<'_>,
) -> Result<(), PutFault>
    requires { AreFiles (task_of job.now) files.now }
    ensures goes { (fresh spare : Own) → is_own fresh ≡ true → Leads (task_of job.now) (under fresh spare unkept [] false false false untouched) (S.deeds store.old) (S.deeds store.new) (S.holds store.old) (S.holds store.new) (Prepares result (task_of job.now) fresh spare) }
    ensures fault { IfErr result (λ why. least_count why (S.faults store.old) ≤ S.faults store.new) }
    ensures later { S.faults store.old ≤ S.faults store.new }
{
    keep_old(alloc, store, job, files)?;
    look(store, job, files)
}

/// Gives OUT.new the name of OUT, where no body goes to OUT.left.
pub fn put_text<S: Store>(
    alloc: Global,
    store: &mut S,
    job: &Job,
    files: &Files<'_>,
) -> Result<(), PutFault>
    requires files { AreFiles (task_of job.now) files.now }
    requires alone { job.now.leaving ≡ None }
    ensures goes { Leads (task_of job.now) (with_fresh start (has job.now.text.items true)) (S.deeds store.old) (S.deeds store.new) (S.holds store.old) (S.holds store.new) (Fills result (task_of job.now) (S.faults store.old) (S.faults store.new)) }
    ensures later { S.faults store.old ≤ S.faults store.new }
{
    prepare(alloc, store, job, files)?;
    match store.rename(files.fresh, files.out) {
        Ok(()) => Ok(()),
        Err(Failed) => Err(PutFault::WriteFault),
    }
}
