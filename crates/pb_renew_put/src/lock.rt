//! The lock, which is OUT.new.

ghost use Rattle.std.specs.Prelude.{◌≡◌, ◌≤◌, List, true, false, []};
ghost use Rattle.pb_renew_put.specs.Ends.{Ends};
ghost use Rattle.pb_renew_put.specs.Jobs.{task_of};
ghost use Rattle.pb_renew_put.specs.Phases.{has, Leads, start, with_fresh};
ghost use Rattle.pb_renew_put.specs.Steps.{AreFiles, Fills};

use crate::fault::PutFault;
use crate::files::Files;
use crate::job::Job;
use crate::left::put_both;
use crate::remove::without;
use crate::text::put_text;
use crate::whole::write_whole;
use pb_renew_store::{Failed, Store};
use std::alloc::Global;

/// Puts all under a lock.
pub fn put_alone<S: Store>(
    alloc: Global,
    store: &mut S,
    job: &Job,
    files: &Files<'_>,
) -> Result<(), PutFault>
    requires { AreFiles (task_of job.now) files.now }
    ensures goes { Leads (task_of job.now) start (S.deeds store.old) (S.deeds store.new) (S.holds store.old) (S.holds store.new) (Ends result (task_of job.now) (S.faults store.old) (S.faults store.new)) }
    ensures later { S.faults store.old ≤ S.faults store.new }
{
    match store.make(files.fresh, files.out) {
        Ok(true) => put_locked(alloc, store, job, files),
        Ok(false) => Err(PutFault::Busy),
        Err(Failed) => Err(PutFault::WriteFault),
    }
}

/// Puts all where OUT.new is made, or takes that away.
fn put_locked<S: Store>(
    alloc: Global,
    store: &mut S,
    job: &Job,
    files: &Files<'_>,
) -> Result<(), PutFault>
    requires files { AreFiles (task_of job.now) files.now }
    requires written { S.written store.old ≡ files.now.fresh.now }
    ensures goes { Leads (task_of job.now) (with_fresh start (has [] false)) (S.deeds store.old) (S.deeds store.new) (S.holds store.old) (S.holds store.new) (Ends result (task_of job.now) (S.faults store.old) (S.faults store.new)) }
    ensures later { S.faults store.old ≤ S.faults store.new }
{
    match fill(alloc, store, job, files) {
        Ok(()) => Ok(()),
        Err(why) => Err(without(store, files.fresh, why)),
    }
}

/// Writes OUT.new, and puts all.
fn fill<S: Store>(
    alloc: Global,
    store: &mut S,
    job: &Job,
    files: &Files<'_>,
) -> Result<(), PutFault>
    requires files { AreFiles (task_of job.now) files.now }
    requires written { S.written store.old ≡ files.now.fresh.now }
    ensures goes { Leads (task_of job.now) (with_fresh start (has [] false)) (S.deeds store.old) (S.deeds store.new) (S.holds store.old) (S.holds store.new) (Fills result (task_of job.now) (S.faults store.old) (S.faults store.new)) }
    ensures later { S.faults store.old ≤ S.faults store.new }
{
    match write_whole(store, &job.text) {
        Ok(()) => put_written(alloc, store, job, files),
        Err(Failed) => Err(PutFault::WriteFault),
    }
}

/// Puts all where OUT.new is written.
fn put_written<S: Store>(
    alloc: Global,
    store: &mut S,
    job: &Job,
    files: &Files<'_>,
) -> Result<(), PutFault>
    requires { AreFiles (task_of job.now) files.now }
    ensures goes { Leads (task_of job.now) (with_fresh start (has job.now.text.items true)) (S.deeds store.old) (S.deeds store.new) (S.holds store.old) (S.holds store.new) (Fills result (task_of job.now) (S.faults store.old) (S.faults store.new)) }
    ensures later { S.faults store.old ≤ S.faults store.new }
{
    match &job.leaving {
        None => put_text(alloc, store, job, files),
        Some(leaving) => put_both(alloc, store, job, files, leaving),
    }
}
