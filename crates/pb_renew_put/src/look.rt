//! Looking at a file again.

ghost use Rattle.std.specs.Prelude.{Bool, false, ◌≡◌, ◌≤◌, Option, List, true, IfErr, ℕ};
ghost use Rattle.std.specs.Option.{option_map};
ghost use Rattle.pb_renew_put.specs.Jobs.{Task, task_of};
ghost use Rattle.pb_renew_put.specs.Phases.{Phase, Own, Kept, Leads, is_own, untouched};
ghost use Rattle.pb_renew_put.specs.Puts.{least_count};
ghost use Rattle.pb_renew_put.specs.Steps.{AreFiles, Looks, LooksTwice, under};

use crate::fault::PutFault;
use crate::files::Files;
use crate::job::Job;
use pb_renew_store::{Failed, Store};

/// Looks whether a file has these bytes still, or is missing still.
pub fn look_at<S: Store>(store: &mut S, name: &str, bytes: &Option<Vec<u8>>) -> Result<(), PutFault>
    ensures goes { (t : Task) (p : Phase) → is_own p.fresh ≡ true → Leads t p (S.deeds store.old) (S.deeds store.new) (S.holds store.old) (S.holds store.new) (Looks result t p name.now (option_map (λ b. b.items) bytes.now)) }
    ensures fault { IfErr result (λ why. least_count why (S.faults store.old) ≤ S.faults store.new) }
    ensures later { S.faults store.old ≤ S.faults store.new }
{
    match store.is_still(name, bytes) {
        Ok(true) => Ok(()),
        Ok(false) => Err(PutFault::Changed),
        Err(Failed) => Err(PutFault::ReadFault),
    }
}

/// Looks at FILE and OUT.
pub fn look<S: Store>(store: &mut S, job: &Job, files: &Files<'_>) -> Result<(), PutFault>
    requires { AreFiles (task_of job.now) files.now }
    ensures goes { (fresh spare : Own) (kept : Kept) (taken : List (List ℕ)) (file out : Bool) → is_own fresh ≡ true → Leads (task_of job.now) (under fresh spare kept taken file out false untouched) (S.deeds store.old) (S.deeds store.new) (S.holds store.old) (S.holds store.new) (LooksTwice result (task_of job.now) fresh spare kept taken) }
    ensures fault { IfErr result (λ why. least_count why (S.faults store.old) ≤ S.faults store.new) }
    ensures later { S.faults store.old ≤ S.faults store.new }
{
    look_at(store, files.file, files.source)?;
    look_at(store, files.out, &job.old)
}
