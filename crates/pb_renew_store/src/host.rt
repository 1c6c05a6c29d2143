ghost use Rattle.std.specs.Prelude.{◌≡◌, None, IfOk};
ghost use Rattle.std.specs.String.{string_bytes};
ghost use Rattle.pb_io.specs.Faults.{HasCause};

use crate::calls::count_up;
use crate::open::write_some;
use crate::{Failed, FileKind, Store, place};
use std::alloc::Global;
use std::fs::{self, File, OpenFile};
use std::io::{self, ErrorKind};
use std::rt::Files;

/// The files of the system.
///
/// The file that was made last stays open, and is written and brought to the disk through its descriptor, whatever its name
/// leads to meanwhile.
#[derive(Drop)]
pub struct HostStore<'a, R: Files> {
    alloc: Global,
    rt: &'a R,
    file: Option<R::File>,
    written: String,
    faults: u64,
}

impl<'a, R: Files> HostStore<'a, R> {
    /// The files that the runtime reaches, none of them made so far.
    pub fn new(alloc: Global, rt: &'a R) -> HostStore<'a, R>
        ensures { ⟦<HostStore<'a, R> as Store>⟧.faults result ≡ 0 }
    {
        HostStore {
            alloc,
            rt,
            file: None,
            written: String::new(alloc),
            faults: 0,
        }
    }

    /// What a call of the system gave. A fault of it is counted.
    fn counted<T: Drop>(&mut self, outcome: io::Result<T>) -> Result<T, Failed>
        ensures value { IfOk result (λ value. outcome ≡ Ok value) }
        ensures written { self.new.written ≡ self.old.written }
        ensures cause { HasCause self.old.faults self.new.faults result }
    {
        match outcome {
            Ok(value) => Ok(value),
            Err(_) => {
                count_up(&mut self.faults);
                Err(Failed)
            }
        }
    }
}

impl<'a, R: Files> Store for HostStore<'a, R> {
    ghost holds = { λ _. None };

    ghost deeds = { λ _. None };

    ghost written = { λ store. string_bytes store.written };

    ghost faults = { λ store. store.faults };

    fn kind(&mut self, name: &str) -> Result<FileKind, Failed> {
        let kind = place::kind_of(self.rt, name);
        self.counted(kind)
    }

    fn real_name(&mut self, alloc: Global, name: &str) -> Result<String, Failed> {
        let real = place::real_name(self.rt, alloc, name);
        self.counted(real)
    }

    fn is_same(&mut self, one: &str, other: &str) -> Result<bool, Failed> {
        if one == other {
            return Ok(true);
        }
        let is_one = place::is_one_file(self.rt, one, other);
        self.counted(is_one)
    }

    fn is_still(&mut self, name: &str, bytes: &Option<Vec<u8>>) -> Result<bool, Failed> {
        let is_still = place::is_still(self.rt, name, bytes);
        self.counted(is_still)
    }

    fn make(&mut self, name: &str, like: &str) -> Result<bool, Failed> {
        let Ok(written) = String::from_str(self.alloc, name) else {
            count_up(&mut self.faults);
            return Err(Failed);
        };
        let made = place::make(self.rt, name, like);
        match self.counted(made)? {
            Some(file) => {
                self.file = Some(file);
                self.written = written;
                Ok(true)
            }
            None => Ok(false),
        }
    }

    fn append(&mut self, piece: &[u8]) -> Result<usize, Failed> {
        let count = match &mut self.file {
            Some(file) => write_some(file, piece),
            None => Err(io::Error::from(ErrorKind::NotFound)),
        };
        self.counted(count)
    }

    fn sync(&mut self) -> Result<(), Failed> {
        let synced = match &self.file {
            Some(file) => file.sync_all(),
            None => Err(io::Error::from(ErrorKind::NotFound)),
        };
        self.counted(synced)
    }

    fn settle(&mut self, name: &str) -> Result<(), Failed> {
        let settled = bring_names(self.rt, place::folder_of(name));
        self.counted(settled)
    }

    fn rename(&mut self, from: &str, to: &str) -> Result<(), Failed> {
        let renamed = fs::rename(self.rt, from, to);
        self.counted(renamed)
    }

    fn remove(&mut self, name: &str) -> Result<(), Failed> {
        let removed = fs::remove_file(self.rt, name);
        self.counted(removed)
    }
}

/// Brings the names of a folder to the disk.
fn bring_names<R: Files>(rt: &R, folder: &str) -> io::Result<()> {
    File::open(rt, folder)?.sync_all()
}
