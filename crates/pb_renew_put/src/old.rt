//! The old OUT, kept whole beside the new one.

ghost use Rattle.std.specs.Prelude.{◌≡◌, ◌≤◌, ℕ, Option, List, Some, true, false, IfErr, OnErr, []};
ghost use Rattle.pb_io.specs.Faults.{Rose};
ghost use Rattle.pb_renew_put.specs.Jobs.{Task, task_of};
ghost use Rattle.pb_renew_put.specs.Names.{is_old_name, old_file};
ghost use Rattle.pb_renew_put.specs.Phases.{Own, has, keeps, unkept, Leads, is_own, untouched};
ghost use Rattle.pb_renew_put.specs.Puts.{least_count};
ghost use Rattle.pb_renew_put.specs.Steps.{AreFiles, Copies, FillsCopy, Keeps, Tries, WritesCopy, under};

use crate::fault::PutFault;
use crate::files::Files;
use crate::job::Job;
use crate::look::look;
use crate::names::old_file;
use crate::remove::without;
use crate::whole::write_whole;
use pb_renew_store::{Failed, Store};
use std::alloc::Global;

/// How many old OUTs are kept at most.
const MOST_OLDS: u64 = 9_999;

/// Keeps the old OUT under the first name of OUT.old, OUT.old.2, and so on that no file has, where it is to be kept. FILE and OUT
/// are looked at first.
pub fn keep_old<S: Store>(
    alloc: Global,
    store: &mut S,
    job: &Job,
    files: &Files<'_>,
) -> Result<(), PutFault>
    requires { AreFiles (task_of job.now) files.now }
    ensures goes { (fresh spare : Own) → is_own fresh ≡ true → Leads (task_of job.now) (under fresh spare unkept [] false false false untouched) (S.deeds store.old) (S.deeds store.new) (S.holds store.old) (S.holds store.new) (Keeps result (task_of job.now) fresh spare) }
    ensures fault { IfErr result (λ why. least_count why (S.faults store.old) ≤ S.faults store.new) }
    ensures later { S.faults store.old ≤ S.faults store.new }
{
    if !job.keeps_old {
        return Ok(());
    }
    match &job.old {
        None => Ok(()),
        Some(old) => {
            look(store, job, files)?;
            copy_old(alloc, store, files.out, old)
        }
    }
}

/// Copies the old OUT to the first name that no file has.
fn copy_old<S: Store>(alloc: Global, store: &mut S, out: &str, old: &[u8]) -> Result<(), PutFault>
    ensures goes { (t : Task) (fresh spare : Own) → t.out ≡ out.now → t.keeps_old ≡ true → is_own fresh ≡ true → Leads t (under fresh spare unkept [] true true false untouched) (S.deeds store.old) (S.deeds store.new) (S.holds store.old) (S.holds store.new) (Copies result t fresh spare old.now) }
    ensures fault { IfErr result (λ why. least_count why (S.faults store.old) ≤ S.faults store.new) }
    ensures later { S.faults store.old ≤ S.faults store.new }
{
    for number in 1..MOST_OLDS + 1 {
        if copy_to(alloc, store, out, number, old)? {
            return Ok(());
        }
    }
    Err(PutFault::Olds)
}

/// Copies the old OUT to the name with this number, and brings it to the disk. False where a file has that name.
fn copy_to<S: Store>(
    alloc: Global,
    store: &mut S,
    out: &str,
    number: u64,
    old: &[u8],
) -> Result<bool, PutFault>
    ensures goes { (t : Task) (fresh spare : Own) (taken : List (List ℕ)) → t.out ≡ out.now → t.keeps_old ≡ true → is_own fresh ≡ true → Leads t (under fresh spare unkept taken true true false untouched) (S.deeds store.old) (S.deeds store.new) (S.holds store.old) (S.holds store.new) (Tries result t fresh spare taken number old.now) }
    ensures fault { IfErr result (λ why. least_count why (S.faults store.old) ≤ S.faults store.new) }
    ensures later { S.faults store.old ≤ S.faults store.new }
{
    let name = old_file(alloc, out, number)?;
    copy_as(store, out, &name, old)
}

/// Copies the old OUT to this name, and brings it to the disk. False where a file has that name.
fn copy_as<S: Store>(store: &mut S, out: &str, name: &str, old: &[u8]) -> Result<bool, PutFault>
    ensures goes { (t : Task) (fresh spare : Own) (taken : List (List ℕ)) (number : ℕ) → name.now ≡ old_file t.out number → t.keeps_old ≡ true → is_own fresh ≡ true → Leads t (under fresh spare unkept taken true true false untouched) (S.deeds store.old) (S.deeds store.new) (S.holds store.old) (S.holds store.new) (Tries result t fresh spare taken number old.now) }
    ensures fault { IfErr result (λ why. least_count why (S.faults store.old) ≤ S.faults store.new) }
    ensures later { S.faults store.old ≤ S.faults store.new }
{
    match store.make(name, out) {
        Ok(false) => Ok(false),
        Ok(true) => match write_old(store, name, old) {
            Ok(()) => Ok(true),
            Err(Failed) => Err(PutFault::WriteFault),
        },
        Err(Failed) => Err(PutFault::WriteFault),
    }
}

/// Writes the old OUT to the copy that was made last with this name, or takes that away.
fn write_old<S: Store>(store: &mut S, name: &str, old: &[u8]) -> Result<(), Failed>
    ensures goes { (t : Task) (fresh spare : Own) (taken : List (List ℕ)) → is_old_name t.out name.now ≡ true → S.written store.old ≡ name.now → is_own fresh ≡ true → Leads t (under fresh spare (keeps name.now (has [] false)) taken true true false untouched) (S.deeds store.old) (S.deeds store.new) (S.holds store.old) (S.holds store.new) (WritesCopy result fresh spare name.now taken old.now) }
    ensures fault { OnErr result (Rose (S.faults store.old) (S.faults store.new)) }
    ensures later { S.faults store.old ≤ S.faults store.new }
{
    match fill_old(store, name, old) {
        Ok(()) => Ok(()),
        Err(Failed) => Err(without(store, name, Failed)),
    }
}

fn fill_old<S: Store>(store: &mut S, name: &str, old: &[u8]) -> Result<(), Failed>
    ensures goes { (t : Task) (fresh spare : Own) (taken : List (List ℕ)) → is_old_name t.out name.now ≡ true → S.written store.old ≡ name.now → is_own fresh ≡ true → Leads t (under fresh spare (keeps name.now (has [] false)) taken true true false untouched) (S.deeds store.old) (S.deeds store.new) (S.holds store.old) (S.holds store.new) (FillsCopy result fresh spare name.now taken old.now) }
    ensures fault { OnErr result (Rose (S.faults store.old) (S.faults store.new)) }
    ensures later { S.faults store.old ≤ S.faults store.new }
{
    write_whole(store, old)?;
    store.settle(name)
}
