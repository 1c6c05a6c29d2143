ghost use Rattle.std.specs.Prelude.{◌≡◌, ℕ, ◌+◌, ◌≤◌, Bool, List, Option, IsOk};
ghost use Rattle.std.specs.Io.{ReadsAtMost};
ghost use Rattle.std.specs.Io.KnownBytes.{ReadConsumes};
ghost use Rattle.pb_io.specs.Faults.{HasCause};
ghost use Rattle.pb_io.specs.Files.{File, Opens, IsSure, IsSureOf};
ghost use Rattle.pb_io.specs.Passed.{CountsRead};

use crate::Failed;

/// Files that are opened by their names, one at a time.
pub trait Folder {
    // The files, where the folder tells them. Of two files with one name the first counts.
    ghost holds: { Self → Option (List File) };

    // The bytes of the open file that are not read yet, where the folder tells them.
    ghost left: { Self → Option (List ℕ) };

    // A steady folder that tells its files opens and reads each of them without a fault.
    ghost steady: { Self → Bool };

    // The number of failed calls, which stays at 2 ^ 64 - 1 once it is there.
    ghost faults: { Self → ℕ };

    // The number of reads, of the folders that count them.
    ghost reads: { Self → ℕ };

    // The number of bytes that were read, which stays at 2 ^ 64 - 1 once it is there.
    ghost passed: { Self → ℕ };

    /// Opens the file with this name at its first byte, in place of the one that was open.
    ///
    /// `Failed` comes only where the count of faults rose, and leaves the open file as it was.
    fn open_file(&mut self, name: &str) -> Result<(), Failed>
        ensures opened { Opens (holds self.old) name.now (left self.old) (left self.new) result }
        ensures sure { IsSureOf (steady self.old) (holds self.old) name.now → IsOk result }
        ensures holds { holds self.new ≡ holds self.old }
        ensures steady { steady self.new ≡ steady self.old }
        ensures reads { reads self.new ≤ reads self.old }
        ensures passed { passed self.new ≡ passed self.old }
        ensures cause { HasCause (faults self.old) (faults self.new) result };

    /// Reads the next bytes of the open file into the front of the buffer, and gives their number.
    ///
    /// The number is 0 only at the end of the file, or where the buffer is empty. `Failed` comes only where the count
    /// of faults rose, and reads nothing.
    fn read(&mut self, buf: &mut [u8]) -> Result<usize, Failed>
        ensures count { ReadsAtMost result buf.new }
        ensures bytes { ReadConsumes (left self.old) (left self.new) result buf.new }
        ensures sure { IsSure (steady self.old) (holds self.old) → IsOk result }
        ensures holds { holds self.new ≡ holds self.old }
        ensures steady { steady self.new ≡ steady self.old }
        ensures reads { reads self.new ≤ (reads self.old + 1) }
        ensures passed { CountsRead (passed self.old) (passed self.new) result }
        ensures cause { HasCause (faults self.old) (faults self.new) result };
}
