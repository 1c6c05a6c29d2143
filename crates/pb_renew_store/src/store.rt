ghost use Rattle.std.specs.Prelude.{◌≡◌, ℕ, List, Option, take, IfOk, IfSome, OnErr, OnOk, if◌then◌else◌};
ghost use Rattle.std.specs.Cmp.Lexicographic.{pointwise};
ghost use Rattle.std.specs.Option.{option_map};
ghost use Rattle.std.specs.Prelude.{true, nat_eq};
ghost use Rattle.std.specs.String.{string_bytes};
ghost use Rattle.pb_io.specs.Faults.{HasCause};
ghost use Rattle.pb_io.specs.Files.{File, file_of};
ghost use Rattle.pb_io.specs.Sinks.{IsCountOf};
ghost use Rattle.pb_renew_store.specs.Deeds.{Deed, made, met, wrote, spoiled, compared, synced, settled, renamed, removed, Did, DidNothing};
ghost use Rattle.pb_renew_store.specs.Kinds.{kind_of};

use crate::{Failed, FileKind};
use std::alloc::Global;

/// Named files that are made, written, compared, renamed and removed, by this call and maybe by others beside it.
///
/// Each call can fail, and then the count of faults rises. A call that fails has changed nothing, but for `append`.
pub trait Store {
    // The files, where the store tells them. Of two files with one name the first counts.
    ghost holds: { Self → Option (List File) };

    // What was done so far, in its order, where the store tells it.
    ghost deeds: { Self → Option (List Deed) };

    // The name of the file that was made last, which is the one that is written.
    ghost written: { Self → List ℕ };

    // The number of failed calls, which stays at 2 ^ 64 - 1 once it is there.
    ghost faults: { Self → ℕ };

    /// What the name leads to. A link is followed.
    fn kind(&mut self, name: &str) -> Result<FileKind, Failed>
        ensures kind { IfOk result (λ kind. IfSome (holds self.old) (λ files. kind ≡ kind_of (file_of files name.now))) }
        ensures nothing { DidNothing (deeds self.old) (deeds self.new) (holds self.old) (holds self.new) }
        ensures written { written self.new ≡ written self.old }
        ensures cause { HasCause (faults self.old) (faults self.new) result };

    /// The name of the file that the name leads to, where there is one: where a link has it, that of the file itself, with all links
    /// followed, and else this name. In a store that tells its files no link has a name.
    fn real_name(&mut self, alloc: Global, name: &str) -> Result<String, Failed>
        ensures own { IfOk result (λ real. IfSome (holds self.old) (λ files. string_bytes real ≡ name.now)) }
        ensures nothing { DidNothing (deeds self.old) (deeds self.new) (holds self.old) (holds self.new) }
        ensures written { written self.new ≡ written self.old }
        ensures cause { HasCause (faults self.old) (faults self.new) result };

    /// True where both names lead to one file, or are the same. In a store that tells its files only the same names do.
    fn is_same(&mut self, one: &str, other: &str) -> Result<bool, Failed>
        ensures same { IfOk result (λ it. pointwise nat_eq one.now other.now ≡ true → it ≡ true) }
        ensures told { IfOk result (λ it. IfSome (holds self.old) (λ files. it ≡ pointwise nat_eq one.now other.now)) }
        ensures nothing { DidNothing (deeds self.old) (deeds self.new) (holds self.old) (holds self.new) }
        ensures written { written self.new ≡ written self.old }
        ensures cause { HasCause (faults self.old) (faults self.new) result };

    /// True where the file with this name has exactly these bytes, or is missing where there are none.
    fn is_still(&mut self, name: &str, bytes: &Option<Vec<u8>>) -> Result<bool, Failed>
        ensures done { IfOk result (λ it. Did (deeds self.old) (deeds self.new) (holds self.old) (holds self.new) (compared name.now (option_map (λ b. b.items) bytes.now) it)) }
        ensures failed { OnErr result (DidNothing (deeds self.old) (deeds self.new) (holds self.old) (holds self.new)) }
        ensures written { written self.new ≡ written self.old }
        ensures cause { HasCause (faults self.old) (faults self.new) result };

    /// Makes an empty file with this name, where none has it, to be written by `append`. It has the mode and, where that is
    /// allowed, the owner of the file with the name `like`, if there is one. False where a file has the name.
    fn make(&mut self, name: &str, like: &str) -> Result<bool, Failed>
        ensures done { IfOk result (λ is_made. Did (deeds self.old) (deeds self.new) (holds self.old) (holds self.new) (if is_made then made name.now else met name.now)) }
        ensures written { IfOk result (λ is_made. written self.new ≡ (if is_made then name.now else written self.old)) }
        ensures failed { OnErr result (DidNothing (deeds self.old) (deeds self.new) (holds self.old) (holds self.new)) }
        ensures cause { HasCause (faults self.old) (faults self.new) result };

    /// Appends some first bytes of the piece to the file that was made last, and gives their number: at least one where the
    /// piece has any. It must not have been renamed or removed meanwhile.
    ///
    /// `Failed` says nothing of what that file has then.
    fn append(&mut self, piece: &[u8]) -> Result<usize, Failed>
        ensures count { IfOk result (IsCountOf piece.now) }
        ensures done { IfOk result (λ n. Did (deeds self.old) (deeds self.new) (holds self.old) (holds self.new) (wrote (written self.old) (take n piece.now))) }
        ensures failed { OnErr result (Did (deeds self.old) (deeds self.new) (holds self.old) (holds self.new) (spoiled (written self.old))) }
        ensures written { written self.new ≡ written self.old }
        ensures cause { HasCause (faults self.old) (faults self.new) result };

    /// Brings the bytes of the file that was made last to the disk: they outlive a crash of the machine.
    fn sync(&mut self) -> Result<(), Failed>
        ensures done { OnOk result (Did (deeds self.old) (deeds self.new) (holds self.old) (holds self.new) (synced (written self.old))) }
        ensures failed { OnErr result (DidNothing (deeds self.old) (deeds self.new) (holds self.old) (holds self.new)) }
        ensures written { written self.new ≡ written self.old }
        ensures cause { HasCause (faults self.old) (faults self.new) result };

    /// Brings the names of the folder to the disk that the file with this name is in.
    fn settle(&mut self, name: &str) -> Result<(), Failed>
        ensures done { OnOk result (Did (deeds self.old) (deeds self.new) (holds self.old) (holds self.new) (settled name.now)) }
        ensures failed { OnErr result (DidNothing (deeds self.old) (deeds self.new) (holds self.old) (holds self.new)) }
        ensures written { written self.new ≡ written self.old }
        ensures cause { HasCause (faults self.old) (faults self.new) result };

    /// Gives the file with the first name the second one, in place of the file that had it.
    fn rename(&mut self, from: &str, to: &str) -> Result<(), Failed>
        ensures done { OnOk result (Did (deeds self.old) (deeds self.new) (holds self.old) (holds self.new) (renamed from.now to.now)) }
        ensures failed { OnErr result (DidNothing (deeds self.old) (deeds self.new) (holds self.old) (holds self.new)) }
        ensures written { written self.new ≡ written self.old }
        ensures cause { HasCause (faults self.old) (faults self.new) result };

    /// Takes the file with this name away.
    fn remove(&mut self, name: &str) -> Result<(), Failed>
        ensures done { OnOk result (Did (deeds self.old) (deeds self.new) (holds self.old) (holds self.new) (removed name.now)) }
        ensures failed { OnErr result (DidNothing (deeds self.old) (deeds self.new) (holds self.old) (holds self.new)) }
        ensures written { written self.new ≡ written self.old }
        ensures cause { HasCause (faults self.old) (faults self.new) result };
}
