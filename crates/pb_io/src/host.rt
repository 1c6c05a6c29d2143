ghost use Rattle.std.specs.Prelude.{◌≡◌, None, false, IsSome, OnOk, OnErr, option_and_then};
ghost use Rattle.pb_io.specs.Faults.{HasCause};

use crate::calls::{count_bytes, count_up};
use crate::{Failed, Folder, Sink};
use std::fs::File;
use std::io::{Read, Write};
use std::rt::Files;

/// The files of the system.
#[derive(Drop)]
pub struct HostFolder<'a, R: Files> {
    rt: &'a R,
    file: Option<R::File>,
    faults: u64,
    passed: u64,
}

impl<'a, R: Files> HostFolder<'a, R> {
    /// The files that the runtime reaches, none of them open.
    pub fn new(rt: &'a R) -> HostFolder<'a, R>
        ensures { ⟦<HostFolder<'a, R> as Folder>⟧.faults result ≡ 0 }
    {
        HostFolder {
            rt,
            file: None,
            faults: 0,
            passed: 0,
        }
    }

    /// Opens the file with this name in place of the one that was open. `Failed` leaves that one open.
    fn open(&mut self, name: &str) -> Result<(), Failed>
        ensures open { OnOk result (IsSome self.new.file) }
        ensures same { OnErr result (self.new.file ≡ self.old.file) }
        ensures cause { HasCause self.old.faults self.new.faults result }
        ensures passed { self.new.passed ≡ self.old.passed }
    {
        match File::open(self.rt, name) {
            Ok(file) => {
                self.file = Some(file);
                Ok(())
            }
            Err(_) => {
                count_up(&mut self.faults);
                Err(Failed)
            }
        }
    }
}

impl<'a, R: Files> Folder for HostFolder<'a, R> {
    ghost holds = { λ _. None };

    // Of a file whose bytes the runtime tells; without an open file nothing is told.
    ghost left = { λ folder. option_and_then R.File.remaining folder.file };

    ghost steady = { λ _. false };

    ghost faults = { λ folder. folder.faults };

    ghost reads = { λ _. 0 };

    ghost passed = { λ folder. folder.passed };

    fn open_file(&mut self, name: &str) -> Result<(), Failed> {
        self.open(name)
    }

    fn read(&mut self, buf: &mut [u8]) -> Result<usize, Failed> {
        let Some(file) = &mut self.file else {
            return Ok(0);
        };
        match file.read(buf) {
            Ok(count) => {
                count_bytes(&mut self.passed, count);
                Ok(count)
            }
            Err(_) => {
                count_up(&mut self.faults);
                Err(Failed)
            }
        }
    }
}

/// The output of the system.
#[derive(Drop)]
pub struct HostSink<W: Write + Drop> {
    to: W,
    faults: u64,
}

impl<W: Write + Drop> HostSink<W> {
    /// What is written goes to this writer, as `std::io::writer(&rt)` for the standard output.
    pub fn new(to: W) -> HostSink<W>
        ensures { ⟦<HostSink<W> as Sink>⟧.faults result ≡ 0 }
    {
        HostSink { to, faults: 0 }
    }
}

impl<W: Write + Drop> Sink for HostSink<W> {
    // Where the writer tells what it holds.
    ghost taken = { λ sink. W.contents sink.to };

    ghost faults = { λ sink. sink.faults };

    fn write(&mut self, piece: &[u8]) -> Result<usize, Failed> {
        if piece.is_empty() {
            return Ok(0);
        }
        match self.to.write(piece) {
            Ok(count) if count > 0 => Ok(count),
            _ => {
                count_up(&mut self.faults);
                Err(Failed)
            }
        }
    }
}
