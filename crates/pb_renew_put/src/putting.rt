//! Putting OUT, and OUT.left with it, under a lock.

ghost use Rattle.std.specs.Prelude.{◌≡◌, ◌⊎◌, ◌≤◌, false, IfErr, IfOk, IfSome, IsErrOf, IsSome, OnOk};
ghost use Rattle.std.specs.String.{string_bytes};
ghost use Rattle.pb_io.specs.Faults.{next_count};
ghost use Rattle.pb_io.specs.Files.{file_of};
ghost use Rattle.pb_renew_put.specs.Ends.{Ends};
ghost use Rattle.pb_renew_put.specs.Jobs.{task_of};
ghost use Rattle.pb_renew_put.specs.Names.{is_written, new_name};
ghost use Rattle.pb_renew_put.specs.Phases.{Leads, start};
ghost use Rattle.pb_renew_put.specs.Puts.{Cleans, Fails, HasFailed, IsCauseIn, KeepsRest, Puts, least_count};
ghost use Rattle.pb_renew_store.specs.Changes.{Turns};

use crate::NoMemory;
use crate::fault::PutFault;
use crate::files::Files;
use crate::job::Job;
use crate::lock::put_alone;
use crate::names::{left_name, new_name, spare_name};
use pb_renew_store::Store;
use std::alloc::Global;

/// Puts a text in the place of OUT, and bodies in the place of OUT.left, where some go there.
///
/// OUT.new is made first, which no other call can make as long as it is there: that is the lock. The text is written to it; then
/// the bodies to OUT.left.new, and the old OUT to OUT.old, where it is to be kept, or to OUT.old.2, and so on, where that is there.
/// When all of these are on the disk, FILE, OUT and OUT.left are compared with what the job says that they have. Then OUT.left.new
/// gets the name of OUT.left, which is brought to the disk, and OUT.new that of OUT.
///
/// `Busy` comes where OUT.new or OUT.left.new is there, made by another call or left by one that was ended, `Changed` where one
/// of the three files has changed, and `Olds` where there are 9,999 old OUTs. After each fault OUT is as it was, and OUT.left, too;
/// but after `Halfway` OUT.left has the bodies. OUT.new and OUT.left.new are taken away, if this call made them and that can be
/// done; a whole copy of the old OUT may stay. `Halfway` comes only where two calls of the store have failed, or one and somebody
/// else made an OUT.left.new meanwhile.
pub fn put<S: Store>(alloc: Global, store: &mut S, job: &Job) -> Result<(), PutFault>
    requires apart { is_written (string_bytes job.now.out) (string_bytes job.now.file) ≡ false }
    ensures done { OnOk result (Turns (S.holds store.old) (S.holds store.new) (Puts (task_of job.now))) }
    ensures kept { IfErr result (λ why. Turns (S.holds store.old) (S.holds store.new) (Fails why (task_of job.now))) }
    ensures clean { IfErr result (λ why. Turns (S.holds store.old) (S.holds store.new) (Cleans (task_of job.now)) ⊎ (next_count (least_count why (S.faults store.old)) ≤ S.faults store.new)) }
    ensures fault { IfErr result (λ why. HasFailed why (S.holds store.old) (S.faults store.old) (S.faults store.new)) }
    ensures cause { IfErr result (λ why. IfSome (S.holds store.old) (IsCauseIn why (task_of job.now))) }
    ensures busy { IsErrOf result PutFault.Busy → Turns (S.holds store.old) (S.holds store.new) (λ old new. IsSome (file_of old (new_name (string_bytes job.now.out))) → new ≡ old) }
    ensures rest { Turns (S.holds store.old) (S.holds store.new) (KeepsRest (task_of job.now)) }
    ensures goes { Leads (task_of job.now) start (S.deeds store.old) (S.deeds store.new) (S.holds store.old) (S.holds store.new) (Ends result (task_of job.now) (S.faults store.old) (S.faults store.new)) }
    ensures later { S.faults store.old ≤ S.faults store.new }
{
    let source = Some(copied(alloc, &job.source)?);
    let left = left_name(alloc, &job.out)?;
    let fresh = new_name(alloc, &job.out)?;
    let spare = spare_name(alloc, &job.out)?;
    let files = Files {
        file: &job.file,
        source: &source,
        out: &job.out,
        left: &left,
        fresh: &fresh,
        spare: &spare,
    };
    put_alone(alloc, store, job, &files)
}

fn copied(alloc: Global, bytes: &Vec<u8>) -> Result<Vec<u8>, NoMemory>
    ensures { IfOk result (λ copy. copy.items ≡ bytes.now.items) }
{
    let mut copy = Vec::new(alloc);
    copy.extend_from_slice(bytes)?;
    Ok(copy)
}
