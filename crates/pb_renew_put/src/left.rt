//! OUT.left, which gets its name before OUT, and is put back where OUT can't get its own.

ghost use Rattle.std.specs.Prelude.{◌≡◌, ◌≤◌, ℕ, List, Option, Some, true, false, IfErr, IsSome, OnErr, []};
ghost use Rattle.pb_io.specs.Faults.{Rose};
ghost use Rattle.pb_renew_put.specs.Ends.{is_grown};
ghost use Rattle.pb_renew_put.specs.Jobs.{Behind, Task, behind_of, task_of};
ghost use Rattle.pb_renew_put.specs.Phases.{nothing, has, Kept, is_kept, unkept, Leads, start, with_fresh, LeftIs, untouched, grown};
ghost use Rattle.pb_renew_put.specs.Puts.{least_count};
ghost use Rattle.pb_renew_put.specs.Steps.{AreFiles, Closes, Fills, Raises, Rewrites, Undoes, under};

use crate::fault::PutFault;
use crate::files::Files;
use crate::job::{Job, Leaving};
use crate::look::look_at;
use crate::remove::without;
use crate::text::prepare;
use crate::whole::write_whole;
use pb_renew_store::{Failed, Store};
use std::alloc::Global;

/// Puts OUT.left and OUT, where OUT.new is written.
pub fn put_both<S: Store>(
    alloc: Global,
    store: &mut S,
    job: &Job,
    files: &Files<'_>,
    leaving: &Leaving,
) -> Result<(), PutFault>
    requires files { AreFiles (task_of job.now) files.now }
    requires leaving { (task_of job.now).behind ≡ Some (behind_of leaving.now) }
    ensures goes { Leads (task_of job.now) (with_fresh start (has job.now.text.items true)) (S.deeds store.old) (S.deeds store.new) (S.holds store.old) (S.holds store.new) (Fills result (task_of job.now) (S.faults store.old) (S.faults store.new)) }
    ensures later { S.faults store.old ≤ S.faults store.new }
{
    match store.make(files.spare, files.left) {
        Ok(true) => put_spare(alloc, store, job, files, leaving),
        Ok(false) => Err(PutFault::Busy),
        Err(Failed) => Err(PutFault::WriteFault),
    }
}

/// Puts OUT.left and OUT, where OUT.left.new is made.
fn put_spare<S: Store>(
    alloc: Global,
    store: &mut S,
    job: &Job,
    files: &Files<'_>,
    leaving: &Leaving,
) -> Result<(), PutFault>
    requires files { AreFiles (task_of job.now) files.now }
    requires leaving { (task_of job.now).behind ≡ Some (behind_of leaving.now) }
    requires written { S.written store.old ≡ files.now.spare.now }
    ensures goes { Leads (task_of job.now) (under (has job.now.text.items true) (has [] false) unkept [] false false false untouched) (S.deeds store.old) (S.deeds store.new) (S.holds store.old) (S.holds store.new) (Fills result (task_of job.now) (S.faults store.old) (S.faults store.new)) }
    ensures later { S.faults store.old ≤ S.faults store.new }
{
    match raise(alloc, store, job, files, leaving) {
        Ok(()) => finish(store, job, files, leaving),
        Err(why) => Err(without(store, files.spare, why)),
    }
}

/// Writes OUT.left.new, and gives it the name of OUT.left when FILE, OUT and OUT.left have been looked at.
fn raise<S: Store>(
    alloc: Global,
    store: &mut S,
    job: &Job,
    files: &Files<'_>,
    leaving: &Leaving,
) -> Result<(), PutFault>
    requires files { AreFiles (task_of job.now) files.now }
    requires leaving { (task_of job.now).behind ≡ Some (behind_of leaving.now) }
    requires written { S.written store.old ≡ files.now.spare.now }
    ensures goes { Leads (task_of job.now) (under (has job.now.text.items true) (has [] false) unkept [] false false false untouched) (S.deeds store.old) (S.deeds store.new) (S.holds store.old) (S.holds store.new) (Raises result (task_of job.now)) }
    ensures fault { IfErr result (λ why. least_count why (S.faults store.old) ≤ S.faults store.new) }
    ensures later { S.faults store.old ≤ S.faults store.new }
{
    match write_whole(store, &leaving.bodies) {
        Ok(()) => raise_written(alloc, store, job, files, leaving),
        Err(Failed) => Err(PutFault::WriteFault),
    }
}

/// Gives OUT.left.new, which is written, the name of OUT.left when FILE, OUT and OUT.left have been looked at.
fn raise_written<S: Store>(
    alloc: Global,
    store: &mut S,
    job: &Job,
    files: &Files<'_>,
    leaving: &Leaving,
) -> Result<(), PutFault>
    requires files { AreFiles (task_of job.now) files.now }
    requires leaving { (task_of job.now).behind ≡ Some (behind_of leaving.now) }
    ensures goes { Leads (task_of job.now) (under (has job.now.text.items true) (has leaving.now.bodies.items true) unkept [] false false false untouched) (S.deeds store.old) (S.deeds store.new) (S.holds store.old) (S.holds store.new) (Raises result (task_of job.now)) }
    ensures fault { IfErr result (λ why. least_count why (S.faults store.old) ≤ S.faults store.new) }
    ensures later { S.faults store.old ≤ S.faults store.new }
{
    prepare(alloc, store, job, files)?;
    look_at(store, files.left, &leaving.before)?;
    match store.rename(files.spare, files.left) {
        Ok(()) => Ok(()),
        Err(Failed) => Err(PutFault::WriteFault),
    }
}

/// Puts OUT, where OUT.left has the bodies, or puts OUT.left back.
fn finish<S: Store>(
    store: &mut S,
    job: &Job,
    files: &Files<'_>,
    leaving: &Leaving,
) -> Result<(), PutFault>
    requires files { AreFiles (task_of job.now) files.now }
    requires leaving { (task_of job.now).behind ≡ Some (behind_of leaving.now) }
    ensures goes { (kept : Kept) (taken : List (List ℕ)) → is_kept (task_of job.now).keeps_old (task_of job.now).old kept ≡ true → Leads (task_of job.now) (under (has job.now.text.items true) nothing kept taken true true true grown) (S.deeds store.old) (S.deeds store.new) (S.holds store.old) (S.holds store.new) (Fills result (task_of job.now) (S.faults store.old) (S.faults store.new)) }
    ensures later { S.faults store.old ≤ S.faults store.new }
{
    match close(store, files) {
        Ok(()) => Ok(()),
        Err(Failed) => match undo(store, files, leaving) {
            Ok(()) => Err(PutFault::WriteFault),
            Err(Failed) => Err(PutFault::Halfway),
        },
    }
}

/// Gives OUT.new the name of OUT, when the name of OUT.left is on the disk.
fn close<S: Store>(store: &mut S, files: &Files<'_>) -> Result<(), Failed>
    ensures goes { (t : Task) (kept : Kept) (taken : List (List ℕ)) → AreFiles t files.now → IsSome t.behind → is_kept t.keeps_old t.old kept ≡ true → Leads t (under (has t.text true) nothing kept taken true true true grown) (S.deeds store.old) (S.deeds store.new) (S.holds store.old) (S.holds store.new) (Closes result t kept taken) }
    ensures fault { OnErr result (Rose (S.faults store.old) (S.faults store.new)) }
    ensures later { S.faults store.old ≤ S.faults store.new }
{
    store.settle(files.left)?;
    store.rename(files.fresh, files.out)
}

/// Puts OUT.left back as it was.
fn undo<S: Store>(store: &mut S, files: &Files<'_>, leaving: &Leaving) -> Result<(), Failed>
    ensures goes { (t : Task) (kept : Kept) (taken : List (List ℕ)) (left : LeftIs) → AreFiles t files.now → t.behind ≡ Some (behind_of leaving.now) → is_grown left ≡ true → Leads t (under (has t.text true) nothing kept taken true true true left) (S.deeds store.old) (S.deeds store.new) (S.holds store.old) (S.holds store.new) (Undoes result t kept taken (S.faults store.old) (S.faults store.new)) }
    ensures later { S.faults store.old ≤ S.faults store.new }
{
    match &leaving.before {
        None => store.remove(files.left),
        Some(bytes) => put_back(store, files, bytes),
    }
}

/// Makes OUT.left.new once more, and puts it in the place of OUT.left.
fn put_back<S: Store>(store: &mut S, files: &Files<'_>, bytes: &[u8]) -> Result<(), Failed>
    ensures goes { (t : Task) (b : Behind) (kept : Kept) (taken : List (List ℕ)) (left : LeftIs) → AreFiles t files.now → t.behind ≡ Some b → b.before ≡ Some bytes.now → is_grown left ≡ true → Leads t (under (has t.text true) nothing kept taken true true true left) (S.deeds store.old) (S.deeds store.new) (S.holds store.old) (S.holds store.new) (Undoes result t kept taken (S.faults store.old) (S.faults store.new)) }
    ensures later { S.faults store.old ≤ S.faults store.new }
{
    match store.make(files.spare, files.left) {
        Ok(true) => restore(store, files, bytes),
        Ok(false) => Err(Failed),
        Err(Failed) => Err(Failed),
    }
}

/// Puts OUT.left.new, which is made, in the place of OUT.left, or takes it away.
fn restore<S: Store>(store: &mut S, files: &Files<'_>, bytes: &[u8]) -> Result<(), Failed>
    requires written { S.written store.old ≡ files.now.spare.now }
    ensures goes { (t : Task) (b : Behind) (kept : Kept) (taken : List (List ℕ)) (left : LeftIs) → AreFiles t files.now → t.behind ≡ Some b → b.before ≡ Some bytes.now → is_grown left ≡ true → Leads t (under (has t.text true) (has [] false) kept taken true true true left) (S.deeds store.old) (S.deeds store.new) (S.holds store.old) (S.holds store.new) (Undoes result t kept taken (S.faults store.old) (S.faults store.new)) }
    ensures later { S.faults store.old ≤ S.faults store.new }
{
    match rewrite(store, files, bytes) {
        Ok(()) => Ok(()),
        Err(Failed) => Err(without(store, files.spare, Failed)),
    }
}

fn rewrite<S: Store>(store: &mut S, files: &Files<'_>, bytes: &[u8]) -> Result<(), Failed>
    requires written { S.written store.old ≡ files.now.spare.now }
    ensures goes { (t : Task) (b : Behind) (kept : Kept) (taken : List (List ℕ)) (left : LeftIs) → AreFiles t files.now → t.behind ≡ Some b → b.before ≡ Some bytes.now → is_grown left ≡ true → Leads t (under (has t.text true) (has [] false) kept taken true true true left) (S.deeds store.old) (S.deeds store.new) (S.holds store.old) (S.holds store.new) (Rewrites result t kept taken left) }
    ensures fault { OnErr result (Rose (S.faults store.old) (S.faults store.new)) }
    ensures later { S.faults store.old ≤ S.faults store.new }
{
    write_whole(store, bytes)?;
    store.rename(files.spare, files.left)
}
