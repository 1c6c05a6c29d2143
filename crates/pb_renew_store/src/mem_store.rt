ghost use Rattle.std.specs.Prelude.{◌≡◌, ◌≤◌, ◌++◌, ◌∷◌, [], true, false, Some, IfOk, OnOk, OnErr, IsOkAnd};
ghost use Rattle.std.specs.Option.{option_map};
ghost use Rattle.pb_io.specs.Entries.{entries};
ghost use Rattle.pb_io.specs.Faults.{HasCause, Rose};
ghost use Rattle.pb_io.specs.Files.{file_of};
ghost use Rattle.pb_renew_store.specs.Deeds.{Did, DidNothing, Does, spoiled};
ghost use Rattle.pb_renew_store.specs.Recorded.{deed_of, deeds_of};

use crate::calls::{Calls, count_up};
use crate::mem_files::{self, bytes_of, is_same_content};
use crate::unkept::Unkept;
use crate::{Deed, Failed, FileKind, MemFile, Store};
use std::alloc::{AllocError, Global};
use std::snapshot::Snapshot;

/// A store in memory, whose calls can be told to fail, and which keeps what it did.
#[derive(Drop)]
pub struct MemStore {
    alloc: Global,
    files: Vec<MemFile>,
    written: String,
    deeds: Vec<Deed>,
    unkept: Unkept,
    most: usize,
    calls: Calls,
    faults: u64,
    ghost takes_some: { 1 ≤ most },
}

impl MemStore {
    ghost use Rattle.pb_renew_store.specs.MemStore.{keeps_all, store_deeds, store_files, store_written};

    /// A store of these files. Of two files with one name the first counts.
    ///
    /// At most `most` bytes of a piece are appended at once. The calls are numbered from 0; one whose number is in `fails`
    /// is `Failed`, and so is each call at which memory runs out, which has changed nothing. Takes no memory.
    pub fn new(alloc: Global, files: Vec<MemFile>, most: usize, fails: Vec<u64>) -> MemStore
        requires { 1 ≤ most }
        ensures files { store_files result ≡ entries files.items }
        ensures deeds { store_deeds result ≡ [] }
        ensures whole { keeps_all result ≡ true }
        ensures written { store_written result ≡ [] }
        ensures faults { result.faults ≡ 0 }
    {
        MemStore {
            alloc,
            files,
            written: String::new(alloc),
            deeds: Vec::new(alloc),
            unkept: Unkept::Never,
            most,
            calls: Calls::new(fails),
            faults: 0,
        }
    }

    /// The bytes of the file with this name.
    pub fn bytes_of(&self, name: &str) -> Option<&[u8]>
        ensures { option_map (λ bytes. bytes.now) result ≡ file_of (store_files self.now) name.now }
    {
        bytes_of(&self.files, name)
    }

    /// The number of calls so far.
    pub fn calls(&self) -> u64 {
        self.calls.count()
    }

    /// What was done so far, in its order. Once memory runs out as a failed `append` is to be kept, each later call is `Failed`,
    /// and no more is kept.
    pub fn deeds(&self) -> &[Deed]
        ensures { keeps_all self.now ≡ true → deeds_of result.now ≡ store_deeds self.now }
    {
        &self.deeds
    }

    /// True where all that was done is kept.
    pub fn keeps_all(&self) -> bool
        ensures { result ≡ keeps_all self.now }
    {
        match self.unkept {
            Unkept::Never => true,
            Unkept::Again(_) => false,
        }
    }

    /// Does what another call did. False where that can't be done here, comes out otherwise, or memory ran out, and then nothing
    /// is changed. It is no call of this store and none of its deeds.
    pub fn play(&mut self, deed: &Deed) -> bool
        ensures done { result ≡ true → Does (deed_of deed.now) (store_files self.old) (store_files self.new) }
        ensures kept { result ≡ false → store_files self.new ≡ store_files self.old }
        ensures deeds { store_deeds self.new ≡ store_deeds self.old }
        ensures whole { keeps_all self.new ≡ keeps_all self.old }
        ensures written { store_written self.new ≡ store_written self.old }
        ensures faults { self.new.faults ≡ self.old.faults }
    {
        mem_files::play(self.alloc, &mut self.files, deed)
    }

    /// Counts a call, and lets it fail if it is told to.
    fn begin(&mut self) -> Result<(), Failed>
        ensures deeds { store_deeds self.new ≡ store_deeds self.old }
        ensures files { store_files self.new ≡ store_files self.old }
        ensures whole { keeps_all self.new ≡ keeps_all self.old }
        ensures written { store_written self.new ≡ store_written self.old }
        ensures ok { OnOk result (self.new.faults ≡ self.old.faults) }
        ensures cause { HasCause self.old.faults self.new.faults result }
    {
        if self.calls.next_fails() {
            count_up(&mut self.faults);
            return Err(Failed);
        }
        Ok(())
    }

    /// Does a deed and keeps it, as one call. `Failed` where it can't be done or kept, and then nothing is changed.
    fn enact(&mut self, deed: Result<Deed, AllocError>) -> Result<(), Failed>
        ensures done { OnOk result (IsOkAnd deed (λ it. Did (Some (store_deeds self.old)) (Some (store_deeds self.new)) (Some (store_files self.old)) (Some (store_files self.new)) (deed_of it))) }
        ensures failed { OnErr result (DidNothing (Some (store_deeds self.old)) (Some (store_deeds self.new)) (Some (store_files self.old)) (Some (store_files self.new))) }
        ensures whole { OnOk result (keeps_all self.new ≡ true) }
        ensures written { store_written self.new ≡ store_written self.old }
        ensures cause { HasCause self.old.faults self.new.faults result }
    {
        self.begin()?;
        let is_done = match deed {
            Ok(deed) => self.done(deed),
            Err(_) => false,
        };
        if is_done {
            return Ok(());
        }
        count_up(&mut self.faults);
        Err(Failed)
    }

    /// Does a deed and keeps it. False where it can't be done or kept, and then nothing is changed.
    fn done(&mut self, deed: Deed) -> bool
        ensures done { result ≡ true → Did (Some (store_deeds self.old)) (Some (store_deeds self.new)) (Some (store_files self.old)) (Some (store_files self.new)) (deed_of deed) }
        ensures failed { result ≡ false → DidNothing (Some (store_deeds self.old)) (Some (store_deeds self.new)) (Some (store_files self.old)) (Some (store_files self.new)) }
        ensures whole { result ≡ true → keeps_all self.new ≡ true }
        ensures written { store_written self.new ≡ store_written self.old }
        ensures faults { self.new.faults ≡ self.old.faults }
    {
        if !self.keeps_all() || self.deeds.reserve(1).is_err() {
            return false;
        }
        if !mem_files::play(self.alloc, &mut self.files, &deed) {
            return false;
        }
        self.deeds.push(deed).unwrap();
        true
    }

    /// Tells that writing to the file that was made last failed. This is kept unless memory runs out.
    fn spoil(&mut self)
        ensures told { store_deeds self.new ≡ store_deeds self.old ++ spoiled (store_written self.old) ∷ [] }
        ensures files { store_files self.new ≡ store_files self.old }
        ensures written { store_written self.new ≡ store_written self.old }
        ensures faults { self.new.faults ≡ self.old.faults }
    {
        if !self.keep_spoiled() {
            let before = Snapshot::of(&self.unkept);
            self.unkept = Unkept::Again(before);
        }
    }

    /// Keeps that writing to the file that was made last failed. False where that can't be kept.
    fn keep_spoiled(&mut self) -> bool
        ensures told { result ≡ true → store_deeds self.new ≡ store_deeds self.old ++ spoiled (store_written self.old) ∷ [] }
        ensures kept { result ≡ false → store_deeds self.new ≡ store_deeds self.old }
        ensures files { store_files self.new ≡ store_files self.old }
        ensures written { store_written self.new ≡ store_written self.old }
        ensures faults { self.new.faults ≡ self.old.faults }
    {
        if !self.keeps_all() {
            return false;
        }
        match Deed::spoiled(self.alloc, self.written.as_str()) {
            Ok(deed) => self.keep(deed),
            Err(_) => false,
        }
    }

    /// Keeps a deed behind the others. False where memory ran out.
    fn keep(&mut self, deed: Deed) -> bool
        requires { keeps_all self.old ≡ true }
        ensures told { result ≡ true → store_deeds self.new ≡ store_deeds self.old ++ deed_of deed ∷ [] }
        ensures kept { result ≡ false → store_deeds self.new ≡ store_deeds self.old }
        ensures whole { keeps_all self.new ≡ true }
        ensures files { store_files self.new ≡ store_files self.old }
        ensures written { store_written self.new ≡ store_written self.old }
        ensures faults { self.new.faults ≡ self.old.faults }
    {
        self.deeds.push(deed).is_ok()
    }
}

impl Store for MemStore {
    ghost use Rattle.pb_renew_store.specs.MemStore.{store_deeds, store_files, store_written};

    ghost holds = { λ store. Some (store_files store) };

    ghost deeds = { λ store. Some (store_deeds store) };

    ghost written = { store_written };

    ghost faults = { λ store. store.faults };

    fn kind(&mut self, name: &str) -> Result<FileKind, Failed> {
        self.begin()?;
        if mem_files::has(&self.files, name) {
            Ok(FileKind::Regular)
        } else {
            Ok(FileKind::Missing)
        }
    }

    fn real_name(&mut self, alloc: Global, name: &str) -> Result<String, Failed> {
        self.begin()?;
        match String::from_str(alloc, name) {
            Ok(own) if mem_files::has(&self.files, name) => Ok(own),
            _ => {
                count_up(&mut self.faults);
                Err(Failed)
            }
        }
    }

    fn is_same(&mut self, one: &str, other: &str) -> Result<bool, Failed> {
        self.begin()?;
        Ok(one == other)
    }

    fn is_still(&mut self, name: &str, bytes: &Option<Vec<u8>>) -> Result<bool, Failed> {
        let same = is_same_content(self.bytes_of(name), bytes);
        let deed = Deed::compared(self.alloc, name, bytes, same);
        self.enact(deed)?;
        Ok(same)
    }

    fn make(&mut self, name: &str, _like: &str) -> Result<bool, Failed> {
        if mem_files::has(&self.files, name) {
            let deed = Deed::met(self.alloc, name);
            self.enact(deed)?;
            return Ok(false);
        }
        let deed = Deed::made(self.alloc, name);
        match String::from_str(self.alloc, name) {
            Ok(written) => {
                self.enact(deed)?;
                self.written = written;
            }
            Err(error) => self.enact(Err(error))?,
        }
        Ok(true)
    }

    fn append(&mut self, piece: &[u8]) -> Result<usize, Failed> {
        let count = piece.len().min(self.most);
        let deed = Deed::wrote(self.alloc, self.written.as_str(), &piece[..count]);
        match self.enact(deed) {
            Ok(()) => Ok(count),
            Err(_) => {
                self.spoil();
                Err(Failed)
            }
        }
    }

    fn sync(&mut self) -> Result<(), Failed> {
        let deed = Deed::synced(self.alloc, self.written.as_str());
        self.enact(deed)
    }

    fn settle(&mut self, name: &str) -> Result<(), Failed> {
        let deed = Deed::settled(self.alloc, name);
        self.enact(deed)
    }

    fn rename(&mut self, from: &str, to: &str) -> Result<(), Failed> {
        let deed = Deed::renamed(self.alloc, from, to);
        self.enact(deed)
    }

    fn remove(&mut self, name: &str) -> Result<(), Failed> {
        let deed = Deed::removed(self.alloc, name);
        self.enact(deed)
    }
}
