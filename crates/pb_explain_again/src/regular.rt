use pb_io::{Failed, Folder, HostFolder};
use std::fs;
use std::rt::Files;

/// The regular files of the system. No other is opened: what comes from a pipe is read once, and opening one may never return.
#[derive(Drop)]
pub struct RegularFolder<'a, R: Files> {
    rt: &'a R,
    folder: HostFolder<'a, R>,
}

impl<'a, R: Files> RegularFolder<'a, R> {
    /// The regular files that the runtime reaches, none of them open.
    pub fn new(rt: &'a R) -> RegularFolder<'a, R> {
        RegularFolder {
            rt,
            folder: HostFolder::new(rt),
        }
    }
}

/// Whether this is the name of a regular file.
fn is_regular<R: Files>(rt: &R, name: &str) -> bool {
    match fs::metadata(rt, name) {
        Ok(metadata) => metadata.is_file(),
        Err(_) => false,
    }
}

impl<'a, R: Files> Folder for RegularFolder<'a, R> {
    ghost use Rattle.std.specs.Prelude.{None, false};

    ghost holds = { λ _. None };

    ghost left = { λ regular. ⟦<HostFolder<'a, R> as Folder>⟧.left regular.folder };

    ghost steady = { λ _. false };

    ghost faults = { λ regular. ⟦<HostFolder<'a, R> as Folder>⟧.faults regular.folder };

    ghost reads = { λ _. 0 };

    ghost passed = { λ regular. ⟦<HostFolder<'a, R> as Folder>⟧.passed regular.folder };

    // No file has the empty name, so opening it fails.
    fn open_file(&mut self, name: &str) -> Result<(), Failed> {
        if is_regular(self.rt, name) {
            self.folder.open_file(name)
        } else {
            self.folder.open_file("")
        }
    }

    fn read(&mut self, buf: &mut [u8]) -> Result<usize, Failed> {
        self.folder.read(buf)
    }
}
