ghost use Rattle.std.specs.Prelude.{◌≡◌, ◌++◌, [], ◌∷◌, Ok, true, false, OnOk};
ghost use Rattle.pb_ctree.specs.Bodies.{is_rest, is_marker, is_body};

use crate::marker::{Marker, marker_of};
use crate::{Body, Dialect, KName, KernelFault, KernelFile, NamedBody};
use std::alloc::{AllocError, Global};
use std::marker::Model;

/// The lines of a body that isn't closed yet.
#[derive(Drop)]
pub struct Text {
    bytes: Vec<u8>,
}

impl Model for Text {
    ghost use Rattle.std.specs.Prelude.{List, ℕ};

    ghost Value = { List ℕ };

    ghost view = { λ t. t.bytes.items };
}

impl Text {
    fn new(alloc: Global) -> Text
        ensures { result ≡ [] }
    {
        Text {
            bytes: Vec::new(alloc),
        }
    }

    fn push(&mut self, line: &[u8]) -> Result<(), AllocError>
        ensures { OnOk result (self.new ≡ self.old ++ line.now) }
    {
        self.bytes.extend_from_slice(line)
    }

    fn into_bytes(self) -> Vec<u8>
        ensures { result.items ≡ self }
    {
        self.bytes
    }
}

/// A body that isn't closed yet: its name, the line that opened it, and the lines behind that.
#[derive(Drop)]
pub struct OpenBody {
    pub name: KName,
    pub line: u32,
    pub text: Text,
}

/// What the lines up to here were: the bodies that are closed, and the one that isn't.
#[derive(Drop)]
pub struct Reading {
    pub closed: KernelFile,
    pub current: Option<OpenBody>,
}

impl Reading {
    ghost use Rattle.pb_kernels.specs.Files.{nothing, after_plain, after_opening, after_closing, after_marker, step, finished, is_open_body, is_open_new};
    ghost use Rattle.pb_kernels.specs.Outcomes.{Moves, Gives};

    /// No line was read. Takes no memory.
    pub fn new(alloc: Global) -> Reading
        ensures { result ≡ nothing }
    {
        Reading {
            closed: KernelFile::new(alloc),
            current: None,
        }
    }

    /// Reads the line with this number of a file of this dialect.
    #[tactic(auto, unfolding(crate::specs::Files::step))]
    pub fn read(
        &mut self,
        alloc: Global,
        line: &[u8],
        dialect: Dialect,
        number: u32,
    ) -> Result<(), KernelFault>
        requires body { is_open_body self.old.current ≡ true }
        requires fresh { is_open_new self.old.closed self.old.current ≡ true }
        ensures step { Moves (step dialect number line.now self.old) self.new result }
        ensures body { OnOk result (is_rest false line.now ≡ true → is_open_body self.new.current ≡ true) }
        ensures fresh { OnOk result (is_open_new self.new.closed self.new.current ≡ true) }
    {
        if line.starts_with(b"/*@") {
            self.mark(alloc, marker_of(line, dialect), number)
        } else {
            self.pass(line)
        }
    }

    fn mark(&mut self, alloc: Global, marker: Marker, number: u32) -> Result<(), KernelFault>
        requires body { is_open_body self.old.current ≡ true }
        requires fresh { is_open_new self.old.closed self.old.current ≡ true }
        ensures step { Moves (after_marker marker number self.old) self.new result }
        ensures body { OnOk result (is_open_body self.new.current ≡ true) }
        ensures fresh { OnOk result (is_open_new self.new.closed self.new.current ≡ true) }
    {
        match marker {
            Marker::Opening(name) => self.start(alloc, name, number),
            Marker::Closing => self.close(number),
            Marker::Bad => Err(KernelFault::BadMarker(number)),
        }
    }

    /// Reads a line that is no marker.
    #[tactic(auto, using(crate::proofs::Whole::body_more))]
    fn pass(&mut self, line: &[u8]) -> Result<(), KernelFault>
        requires marker { is_marker line.now ≡ false }
        requires body { is_open_body self.old.current ≡ true }
        requires fresh { is_open_new self.old.closed self.old.current ≡ true }
        ensures step { Moves (Ok (after_plain line.now self.old self.old.current)) self.new result }
        ensures body { OnOk result (is_rest false line.now ≡ true → is_open_body self.new.current ≡ true) }
        ensures fresh { OnOk result (is_open_new self.new.closed self.new.current ≡ true) }
    {
        if let Some(body) = &mut self.current {
            body.text.push(line)?;
        }
        Ok(())
    }

    /// Reads a line that opens a body.
    fn start(&mut self, alloc: Global, name: KName, number: u32) -> Result<(), KernelFault>
        ensures step { Moves (after_opening number name self.old.closed self.old.current) self.new result }
        ensures body { OnOk result (is_open_body self.new.current ≡ true) }
        ensures fresh { OnOk result (is_open_new self.new.closed self.new.current ≡ true) }
    {
        if self.current.is_some() {
            return Err(KernelFault::BadMarker(number));
        }
        if self.closed.has(&name) {
            return Err(KernelFault::Twice(name));
        }
        self.current = Some(OpenBody {
            name,
            line: number,
            text: Text::new(alloc),
        });
        Ok(())
    }

    /// Reads a line that closes a body.
    fn close(&mut self, number: u32) -> Result<(), KernelFault>
        requires body { is_open_body self.old.current ≡ true }
        requires fresh { is_open_new self.old.closed self.old.current ≡ true }
        ensures step { Moves (after_closing number self.old.closed self.old.current) self.new result }
        ensures body { OnOk result (is_open_body self.new.current ≡ true) }
        ensures fresh { OnOk result (is_open_new self.new.closed self.new.current ≡ true) }
    {
        match self.current.take() {
            None => Err(KernelFault::BadMarker(number)),
            Some(current) => {
                let name = current.name;
                let body = body_of(current.text);
                self.closed.push(NamedBody { name, body })?;
                Ok(())
            }
        }
    }

    /// The bodies, once all lines were read.
    pub fn finish(self) -> Result<KernelFile, KernelFault>
        ensures { Gives (finished self.closed self.current) result }
    {
        let Reading { closed, current } = self;
        match current {
            None => Ok(closed),
            Some(body) => Err(KernelFault::BadMarker(body.line)),
        }
    }
}

fn body_of(text: Text) -> Body
    requires { is_body text ≡ true }
    ensures { result ≡ text }
{
    match Body::of(text.into_bytes()) {
        Some(body) => body,
        None => unreachable!(),
    }
}
