ghost use Rattle.std.specs.Prelude.{◌≡◌, ◌↔◌, IsTrue, IfSome, IfOk, IsSome};
ghost use Rattle.pb_ctree.specs.Bodies.{is_body};

use crate::{Kind, NoMemory};
use std::alloc::Global;
use std::marker::Model;

/// The bytes of a kernel's body: whole lines, none of which begins with `/*@`.
#[derive(Drop)]
pub struct Body {
    bytes: Vec<u8>,
}

impl Model for Body {
    ghost use Rattle.std.specs.Prelude.{List, ℕ, IsTrue};
    ghost use Rattle.pb_ctree.specs.Bodies.{is_body};

    ghost Value = { List ℕ };

    ghost view = { λ b. b.bytes.items };

    ghost invariant = { λ b. IsTrue (is_body b.bytes.items) };
}

impl Body {
    ghost use Rattle.pb_ctree.specs.Bodies.{is_body};
    ghost use Rattle.pb_ctree.specs.Functions.{default_of};

    /// The body of these bytes. None exactly where they aren't whole lines or a line begins with `/*@`; the bytes are
    /// then given up. Takes no memory.
    pub fn of(bytes: Vec<u8>) -> Option<Body>
        ensures same { IfSome result (λ body. body ≡ bytes.items) }
        ensures some { IsSome result ↔ IsTrue (is_body bytes.items) }
    {
        if is_body(&bytes) {
            Some(Body { bytes })
        } else {
            None
        }
    }

    /// The body that stands where nothing else is given.
    pub(crate) fn default_of(alloc: Global, kind: Kind) -> Result<Body, NoMemory>
        ensures { IfOk result (λ body. body ≡ default_of kind) }
    {
        let mut bytes = Vec::new(alloc);
        match kind {
            Kind::Choice => bytes.extend_from_slice(b"  return 0;\n")?,
            Kind::Prelude | Kind::Compute | Kind::Make | Kind::Take | Kind::Room => {}
        }
        Ok(Body { bytes })
    }

    /// The bytes of its lines. Takes no memory.
    pub fn bytes(&self) -> &[u8]
        ensures same { result.now ≡ self.now }
        ensures whole { IsTrue (is_body result.now) }
    {
        &self.bytes
    }
}

/// True where the bytes are whole lines of which none begins with `/*@`.
fn is_body(bytes: &[u8]) -> bool
    ensures { result ≡ is_body bytes.now }
{
    let mut begins = true;
    for (at, byte) in bytes.iter().enumerate() {
        if begins && bytes[at..].starts_with(b"/*@") {
            return false;
        }
        begins = *byte == b'\n';
    }
    begins
}

/// The bodies of a C text, those of the functions in printed order.
#[derive(Drop)]
pub struct Bodies {
    pub prelude: Body,
    pub list: Vec<Body>,
}
