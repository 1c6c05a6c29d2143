ghost use Rattle.std.specs.Prelude.{◌≡◌, ◌⊎◌, true, false, Some, None, [], length, min, IsSome, IfOk, OnOk, OnErr};
ghost use Rattle.std.specs.Io.{ReadsAtMost};
ghost use Rattle.std.specs.Io.KnownBytes.{ReadConsumes};
ghost use Rattle.pb_io.specs.Entries.{entries};
ghost use Rattle.pb_io.specs.Faults.{HasCause, next_count};
ghost use Rattle.pb_io.specs.Files.{Opens, file_of};
ghost use Rattle.pb_io.specs.Passed.{CountsRead};

use crate::calls::{Calls, count_up};
use crate::shelf::Shelf;
use crate::{Failed, Folder, MemFile};

/// A folder in memory, whose calls can be told to fail.
#[derive(Drop)]
pub struct MemFolder {
    shelf: Shelf,
    calls: Calls,
    faults: u64,
    reads: u64,
}

impl MemFolder {
    ghost use Rattle.pb_io.specs.MemFolder.{folder_files, folder_left, folder_fails, folder_calls, folder_faults, folder_reads, folder_fails_now};

    /// A folder of these files. Of two files with one name the first counts.
    ///
    /// The calls are numbered from 0. One whose number is in `fails` is `Failed` and changes only the counts, and so
    /// does the opening of a name that isn't there. The number of calls stays at 2^64 - 1. Takes no memory.
    pub fn new(files: Vec<MemFile>, fails: Vec<u64>) -> MemFolder
        ensures files { folder_files result ≡ entries files.items }
        ensures fails { folder_fails result ≡ fails.items }
        ensures left { folder_left result ≡ [] }
        ensures calls { folder_calls result ≡ 0 }
        ensures faults { folder_faults result ≡ 0 }
        ensures reads { folder_reads result ≡ 0 }
    {
        MemFolder {
            shelf: Shelf::new(files),
            calls: Calls::new(fails),
            faults: 0,
            reads: 0,
        }
    }
}

impl Folder for MemFolder {
    ghost use Rattle.pb_io.specs.MemFolder.{folder_files, folder_left, folder_faults, folder_reads, folder_passed, folder_fails_now, folder_steady, CountsCall, KeepsFiles};

    ghost holds = { λ folder. Some (folder_files folder) };

    ghost left = { λ folder. Some (folder_left folder) };

    ghost steady = { folder_steady };

    ghost faults = { folder_faults };

    ghost reads = { folder_reads };

    ghost passed = { folder_passed };

    fn open_file(&mut self, name: &str) -> Result<(), Failed>
        ensures opened { Opens (Some (folder_files self.old)) name.now
            (Some (folder_left self.old)) (Some (folder_left self.new)) result }
        ensures failed { OnErr result ((folder_fails_now self.old ≡ true)
            ⊎ (file_of (folder_files self.old) name.now ≡ None)) }
        ensures done { OnOk result ((folder_fails_now self.old ≡ false)
            × IsSome (file_of (folder_files self.old) name.now)) }
        ensures counts { CountsCall self.old self.new result }
        ensures cause { HasCause (folder_faults self.old) (folder_faults self.new) result }
        ensures reads { folder_reads self.new ≡ folder_reads self.old }
        ensures passed { folder_passed self.new ≡ folder_passed self.old }
        ensures settings { KeepsFiles self.old self.new }
    {
        if self.calls.next_fails() {
            count_up(&mut self.faults);
            return Err(Failed);
        }
        match self.shelf.place_of(name) {
            Some(place) => {
                self.shelf.open_at(Some(place));
                Ok(())
            }
            None => {
                count_up(&mut self.faults);
                Err(Failed)
            }
        }
    }

    fn read(&mut self, buf: &mut [u8]) -> Result<usize, Failed>
        ensures count { ReadsAtMost result buf.new }
        ensures bytes { ReadConsumes (Some (folder_left self.old)) (Some (folder_left self.new)) result buf.new }
        ensures exact { IfOk result (λ n. n ≡ min (length buf.old) (length (folder_left self.old))) }
        ensures failed { OnErr result ((folder_fails_now self.old ≡ true) × (buf.new ≡ buf.old)) }
        ensures done { OnOk result (folder_fails_now self.old ≡ false) }
        ensures counts { CountsCall self.old self.new result }
        ensures cause { HasCause (folder_faults self.old) (folder_faults self.new) result }
        ensures reads { folder_reads self.new ≡ next_count (folder_reads self.old) }
        ensures passed { CountsRead (folder_passed self.old) (folder_passed self.new) result }
        ensures settings { KeepsFiles self.old self.new }
    {
        count_up(&mut self.reads);
        if self.calls.next_fails() {
            count_up(&mut self.faults);
            return Err(Failed);
        }
        Ok(self.shelf.read(buf))
    }
}
